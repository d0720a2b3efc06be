//! What a text brought about.
ghost use Rattle.std.specs.Prelude.{◌≡◌, ◌∷◌, [], None, IfOk};

use nostr_event::Event;
use nostr_wire::FromRelay;
use std::alloc::{AllocError, Global};
use std::sync::Arc;

/// What a text brought about.
#[derive(Drop)]
pub struct Step {
    /// What is sent, in this order.
    pub out: Vec<FromRelay>,
    /// The event of a good EVENT, which is to be put into the store.
    pub store: Option<Arc<Event>>,
}

impl Step {
    /// Nothing is sent.
    pub(crate) fn quiet(alloc: Global) -> Step
        ensures { (result.out.items ≡ []) × (result.store ≡ None) }
    {
        Step {
            out: Vec::new(alloc),
            store: None,
        }
    }

    /// One message is sent.
    pub(crate) fn one(alloc: Global, message: FromRelay) -> Result<Step, AllocError>
        ensures { IfOk result (λ s. (s.out.items ≡ message ∷ []) × (s.store ≡ None)) }
    {
        let mut out = Vec::new(alloc);
        out.push(message)?;
        Ok(Step { out, store: None })
    }
}
