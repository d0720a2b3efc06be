// An event as its JSON object, and what its text alone has.
ghost use Rattle.std.specs.Prelude.{◌≡◌, IfOk};
ghost use Rattle.serde_json.specs.View.{view};
ghost use Rattle.nostr_event.specs.EventJson.{Reads, object_of};

use crate::draft::Draft;
use crate::event::Event;
use crate::texts::Text;
use serde_json::Value;
use std::alloc::{AllocError, Global};

impl Event {
    /// The JSON object of the event's seven fields (NIP-01), read from its text.
    pub fn to_json(&self, alloc: Global) -> Result<Value, AllocError>
        ensures object { IfOk result (λ v. view v ≡ object_of self.now) }
        ensures reads_back { IfOk result (λ v. Reads (view v) self.now) }
    {
        let _id = self.id();
        match Value::from_str(alloc, self.text()) {
            Ok(value) => Ok(value),
            Err(_) => Err(AllocError),
        }
    }

    /// The content, read from the event's text.
    pub fn content(&self, alloc: Global) -> Result<Text, AllocError>
        ensures { IfOk result (λ t. t ≡ self.now.draft.content) }
    {
        let value = self.to_json(alloc)?;
        match value.get("content").and_then(Value::as_str) {
            Some(text) => Ok(Text::new(String::from_str(alloc, text)?)),
            None => unreachable!(),
        }
    }

    /// What the event says, as it was before it had an id and a signature.
    pub fn to_draft(&self, alloc: Global) -> Result<Draft, AllocError>
        ensures { IfOk result (λ d. d ≡ self.now.draft) }
    {
        Ok(Draft {
            pubkey: *self.pubkey(),
            created_at: self.created_at(),
            kind: self.kind(),
            tags: self.tags().copied(alloc)?,
            content: self.content(alloc)?,
        })
    }
}
