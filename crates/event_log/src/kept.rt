//! What is kept.
ghost use Rattle.std.specs.Prelude.{◌≡◌, length};

use event_store::{Front, Naming, Placed};
use std::marker::{Model, PhantomData};

/// A beginning of the history of that name, which a log has kept on such a medium. Contracts see it as its events.
pub struct Kept<J: Naming, M> {
    front: Front<J>,
    of: PhantomData<M>,
}

// By hand, as a derived one is proved anew wherever a value is dropped.
impl<J: Naming, M> Drop for Kept<J, M> {
    fn drop(self) {
        let Self { front: _, of: _ } = self;
    }
}

impl<J: Naming, M> Model for Kept<J, M> {
    ghost use Rattle.std.specs.Prelude.{List};
    ghost use Rattle.nostr_event.specs.EventView.{EventView};

    ghost Value = { List EventView };

    ghost view = { λ k. k.front };
}

impl<J: Naming, M> Kept<J, M> {
    // Logs alone make one.
    pub(crate) fn new(front: Front<J>) -> Kept<J, M>
        ensures { result ≡ front }
    {
        Kept {
            front,
            of: PhantomData,
        }
    }

    /// How many events are kept.
    pub fn len(&self) -> u64
        ensures { result ≡ length self.now }
    {
        self.front.len()
    }

    /// A copy.
    pub fn again(&self) -> Kept<J, M>
        ensures { result ≡ self.now }
    {
        Kept::new(self.front.again())
    }
}

/// The medium of a store that is kept nowhere else: what is published is kept.
pub struct InMemory;

impl<J: Naming> Kept<J, InMemory> {
    /// What a desk told of.
    pub fn in_memory(placed: &Placed<J>) -> Kept<J, InMemory>
        ensures { result ≡ placed.now.list }
    {
        Kept::new(placed.told().again())
    }
}
