//! Events with distinct ids, and what finds them: their ids, their times, and what filters ask for.
#![tactic(auto)]

mod choosing;
mod indexing;
mod listing;
mod matching;
mod rolling;
mod table;

pub use choosing::choose;
pub use matching::{leaves_none_out, matching_events};
pub use table::EventTable;
