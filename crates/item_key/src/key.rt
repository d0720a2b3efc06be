//! Keys.

ghost use Rattle.std.specs.Prelude.{◌≡◌, ◌<◌};
ghost use Rattle.item_key.specs.Keys.{endless, IsId, IsKey};

use crate::{Id, Item};
use std::marker::Model;

/// An item's time, which isn't infinity, and its id.
#[derive(Clone, Copy, PartialEq, Eq, PartialOrd, Ord)]
pub struct Key {
    time: u64,
    id: Id,
}

impl Model for Key {
    ghost use Rattle.std.specs.Prelude.{◌<◌};
    ghost use Rattle.item_key.specs.declared.Item.{Item};
    ghost use Rattle.item_key.specs.Keys.{endless};

    ghost Value = { Item };

    ghost view = { λ k. record { time = k.time; id = k.id } };

    ghost invariant = { λ k. k.time < endless };

    ghost inverse = { λ i. record { time = i.time; id = i.id } };
}

impl Key {
    /// The key of a time in seconds and an id.
    pub fn new(time: u64, id: Id) -> Key
        requires { time < endless }
        ensures { result ≡ record { time = time; id = id } }
    {
        Key { time, id }
    }

    /// The time in seconds.
    pub fn time(&self) -> u64
        ensures value { result ≡ self.now.time }
        ensures finite { result < endless }
    {
        self.time
    }

    /// The id.
    pub fn id(&self) -> Id
        ensures value { result ≡ self.now.id }
        ensures whole { IsId result }
    {
        let id = self.id;
        let _ = id.as_bytes();
        id
    }

    /// The item of the same time and id.
    pub fn item(&self) -> Item
        ensures value { result ≡ self.now }
        ensures key { IsKey result }
    {
        Item {
            time: self.time(),
            id: self.id(),
        }
    }
}
