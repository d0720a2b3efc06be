//! Sources of events by their ids, and what they were asked and gave.
#![tactic(auto)]

mod source;

pub use source::{Fetch, Source, SourceFault};
