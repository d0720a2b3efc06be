//! Sources, and what they were asked and gave.

ghost use Rattle.std.specs.Prelude.{◌≡◌, ℕ, ◌+◌, ◌<◌, ◌^◌, ◌-◌, List, [], ◌∷◌, ◌++◌, IfOk, OnErr, Err};
ghost use Rattle.event_source.specs.Fetching.{Fetching, fetching, ids_of};

use item_key::Id;
use nostr_event::Event;
use std::alloc::{AllocError, AllocFailed, Global};
use std::marker::Model;
use std::sync::Arc;
use thiserror::Error;

/// The ids that a source was asked for, and those of the events that it gave, in order.
pub struct Fetch {
    pub asked: Vec<Id>,
    pub given: Vec<Id>,
}

// By hand, as a derived one is proved anew wherever a value is dropped.
impl Drop for Fetch {
    fn drop(self) {
        let Self { asked: _, given: _ } = self;
    }
}

impl Model for Fetch {
    ghost use Rattle.event_source.specs.Fetching.{Fetching};

    ghost Value = { Fetching };

    ghost view = { λ f. record { asked = f.asked.items; given = f.given.items } };
}

impl Fetch {
    /// What was asked for, and the ids of the events that came.
    pub fn of(alloc: Global, asked: &[Id], given: &[Arc<Event>]) -> Result<Fetch, AllocError>
        ensures { IfOk result (λ fetch. fetch ≡ fetching asked.now (ids_of given.now)) }
    {
        let mut ids = Vec::new(alloc);
        for event in given {
            ids.push(event.id())?;
        }
        Ok(Fetch {
            asked: asked.to_vec(alloc)?,
            given: ids,
        })
    }
}

/// Why a source gave nothing.
#[derive(Clone, Copy, Debug, Error)]
pub enum SourceFault {
    /// The source failed, and its count of failures rose.
    #[error("the source failed")]
    Failed,
    /// No memory was found.
    #[error("out of memory")]
    Memory,
}

impl From<AllocError> for SourceFault {
    ghost use Rattle.std.specs.Prelude.{◌≡◌};
    ghost use Rattle.event_source.specs.declared.source.SourceFault.TheVariants.{Memory};

    ghost from_gives = { λ _ e. e ≡ Memory };

    fn from(_error: AllocError) -> SourceFault {
        SourceFault::Memory
    }
}

impl<T: Drop> From<AllocFailed<T>> for SourceFault {
    ghost use Rattle.std.specs.Prelude.{◌≡◌};
    ghost use Rattle.event_source.specs.declared.source.SourceFault.TheVariants.{Memory};

    ghost from_gives = { λ _ e. e ≡ Memory };

    fn from(_error: AllocFailed<T>) -> SourceFault {
        SourceFault::Memory
    }
}

/// What gives events by their ids. It keeps what it was asked and what it gave.
pub trait Source {
    /// What it was asked and gave, the first first.
    ghost log: { Self → List Fetching };

    /// How often it failed.
    ghost faults: { Self → ℕ };

    /// What calls may make of a source.
    ghost becomes: { Self → Self → Type 0 };

    /// Asks for the events with these ids, and gives those that came, in any order; some may be missing, come twice, or
    /// be none of those asked for. What is given is added to the log, and a fault adds nothing. The count of failures
    /// rises where the source failed, and not for want of memory.
    fn fetch(&mut self, ids: &[Id]) -> Result<Vec<Arc<Event>>, SourceFault>
        requires { faults self.old < 2 ^ 64 - 1 }
        ensures ok { IfOk result (λ given. (log self.new ≡ log self.old ++ fetching ids.now (ids_of given.items) ∷ []) × (faults self.new ≡ faults self.old)) }
        ensures err { OnErr result (log self.new ≡ log self.old) }
        ensures failed { result ≡ Err SourceFault.Failed → faults self.old < faults self.new }
        ensures memory { result ≡ Err SourceFault.Memory → faults self.new ≡ faults self.old }
        ensures becomes { becomes self.old self.new };

    /// What it was asked and gave, the first first.
    fn fetches(&self) -> &[Fetch]
        ensures { result.now ≡ log self.now };

    /// How often it failed.
    fn failures(&self) -> u64
        ensures { result ≡ faults self.now };

    ghost stays: { (s : Self) → becomes s s };

    ghost goes_on: { (s t u : Self) → becomes s t → becomes t u → becomes s u };
}
