//! What an insert answers.
ghost use Rattle.std.specs.Prelude.{◌≡◌, true, length};
ghost use Rattle.event_table.specs.Events.{has_id};

use crate::blank::Front;
use crate::name::Naming;
use item_key::Id;
use std::marker::Model;

/// An event is published. Contracts see it as a `Placing`.
pub struct Placed<J: Naming> {
    id: Id,
    fresh: bool,
    told: Front<J>,
}

// By hand, as a derived one is proved anew wherever a value is dropped.
impl<J: Naming> Drop for Placed<J> {
    fn drop(self) {
        let Self {
            id: _,
            fresh: _,
            told: _,
        } = self;
    }
}

impl<J: Naming> Model for Placed<J> {
    ghost use Rattle.std.specs.Prelude.{◌≡◌, true};
    ghost use Rattle.event_table.specs.Events.{has_id};
    ghost use Rattle.event_store.specs.Events.{Placing, placing};

    ghost Value = { Placing };

    ghost view = { λ p. placing p.id p.fresh p.told };

    ghost invariant = { λ p. has_id p.id p.told ≡ true };
}

impl<J: Naming> Placed<J> {
    pub(crate) fn new(id: Id, fresh: bool, told: Front<J>) -> Placed<J>
        requires { has_id id told ≡ true }
        ensures { (result.id ≡ id) × (result.fresh ≡ fresh) × (result.list ≡ told) }
    {
        Placed { id, fresh, told }
    }

    /// The id of the event, which is among those published.
    pub fn id(&self) -> Id
        ensures value { result ≡ self.now.id }
        ensures there { has_id self.now.id self.now.list ≡ true }
    {
        self.id
    }

    /// False for an event that was published before, which publishes nothing.
    pub fn is_fresh(&self) -> bool
        ensures { result ≡ self.now.fresh }
    {
        self.fresh
    }

    /// How many events are published, that one among them.
    pub fn front(&self) -> u64
        ensures { result ≡ length self.now.list }
    {
        self.told.len()
    }

    /// The beginning of the history that it tells of.
    pub fn told(&self) -> &Front<J>
        ensures { result.now ≡ self.now.list }
    {
        &self.told
    }
}
