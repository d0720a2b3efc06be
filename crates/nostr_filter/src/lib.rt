//! Filters over Nostr events (NIP-01): their JSON, what they match, and which events are sent for them.
#![tactic(auto)]

mod choice;
mod conditions;
mod fault;
mod fields;
mod filter;
mod letters;
mod members;
mod order;
mod reading;
mod sizes;
mod taking;
mod tested;
mod writing;

pub use choice::{Rank, choose, cut, put_in_order, rank_at};
pub use conditions::{Bytes32List, Kinds, TagCondition, TagConditions, Texts};
pub use fault::{FilterFault, FilterField};
pub use filter::Filter;
pub use order::TagOrder;
pub use sizes::room_behind;
