//! Times that are gone over slice by slice, from the newest to the oldest.
#![tactic(auto)]

mod course;
mod times;

pub use course::Slices;
pub use times::{Ending, Slice};
