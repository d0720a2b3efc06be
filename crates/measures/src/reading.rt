//! Events and filters of texts.

use nostr_event::Event;
use nostr_filter::Filter;
use serde_json::Value;
use std::alloc::Global;
use std::sync::Arc;

/// The JSON value of a text.
fn parsed(alloc: Global, text: &str) -> Option<Value> {
    Value::from_str(alloc, text).ok()
}

/// The event of a text.
pub fn read(alloc: Global, text: &str) -> Option<Event> {
    Event::from_json(alloc, &parsed(alloc, text)?).ok()
}

/// The event of a text, for a store.
pub fn read_shared(alloc: Global, text: &str) -> Option<Arc<Event>> {
    Arc::new(alloc, read(alloc, text)?).ok()
}

/// The filter of a text.
pub fn filter(alloc: Global, text: &str) -> Option<Filter> {
    Filter::from_json(alloc, &parsed(alloc, text)?).ok()
}
