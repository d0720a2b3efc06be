//! Nostr events read straight from the text of their JSON, with no value between.
//!
//! Read so is an object of an event's seven fields (NIP-01) in any order, and of nothing else. What isn't is left to
//! [`Event::from_json`](nostr_event::Event::from_json), which tells its fault.
#![tactic(auto)]

mod fields;
mod reading;
mod scratch;
mod tags;

pub use reading::{event_in, event_of_bytes};
pub use scratch::EventScratch;
