//! Ids, items and keys, in their order.
#![tactic(auto)]

/// The id of a record: 32 bytes, ordered byte by byte.
#[derive(Clone, Copy, PartialEq, Eq, PartialOrd)]
pub struct Id(pub [u8; 32]);

/// A record's time in seconds and its id. Items are ordered by time, then by id.
#[derive(Clone, Copy, PartialEq, Eq, PartialOrd, Ord)]
pub struct Item {
    pub time: u64,
    pub id: Id,
}

mod id_order;
mod items;
mod key;
mod laws;

pub use key::Key;
pub use laws::{one_place, order_of_keys};
