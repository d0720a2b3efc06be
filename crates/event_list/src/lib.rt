//! Lists of events, which share what they have in common.
#![tactic(auto)]

mod chunk;
mod chunks;
mod events;
mod list;

pub use list::EventList;
