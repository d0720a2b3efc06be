//! Passes over slices of time, each compared with relays and fetched, and subscriptions to relays between them.
#![tactic(auto)]

mod heeding;
mod lines;
mod live;
mod pass;
mod passes;
mod roster;
mod span;
mod tally;
mod wishes;

pub use passes::run_live;
