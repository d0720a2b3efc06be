//! Events in runs of which each has the newest first, and choosing from their newest ends.
#![tactic(auto)]

mod choice;
mod entry;
mod heads;
mod order;
mod rests;
mod run;

pub use choice::choose;
pub use order::Newest;
