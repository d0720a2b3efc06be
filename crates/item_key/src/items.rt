//! Ids and items, and the order of items.

ghost use Rattle.std.specs.Prelude.{◌≡◌, ◌<◌, ◌↔◌, IsTrue};
ghost use Rattle.std.specs.Ordering.{nat_cmp};
ghost use Rattle.item_key.specs.Keys.{IsId, id_of_bytes, place};

use crate::{Id, Item};
use std::cmp::Ordering;

/// That an array has its length, of bytes.
pub(crate) fn id_has_its_length(bytes: &[u8; 32])
    ensures { IsId (id_of_bytes bytes.now) }
{
    let _ = bytes.as_slice();
}

impl Id {
    /// The 32 bytes.
    pub fn as_bytes(&self) -> &[u8; 32]
        ensures value { result.now ≡ self.now.0 }
        ensures whole { IsId self.now }
    {
        id_has_its_length(&self.0);
        &self.0
    }
}

impl Item {
    /// Compares two items: by time, then by the bytes of the id.
    pub fn compare(&self, other: &Item) -> Ordering
        ensures { result ≡ nat_cmp (place self.now) (place other.now) }
    {
        id_has_its_length(&self.id.0);
        id_has_its_length(&other.id.0);
        self.cmp(other)
    }

    /// Whether the item stands below another.
    pub fn is_below(&self, other: &Item) -> bool
        ensures { IsTrue result ↔ place self.now < place other.now }
    {
        self.compare(other).is_lt()
    }
}
