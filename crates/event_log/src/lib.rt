//! The events of a store as a log of lines: what is published is appended, and kept before it is acknowledged.
#![tactic(auto)]

mod keeper;
mod kept;
mod lines;
mod log;
mod medium;

pub use keeper::{Keeper, Unfiled};
pub use kept::{InMemory, Kept};
pub use log::Log;
pub use medium::Medium;
