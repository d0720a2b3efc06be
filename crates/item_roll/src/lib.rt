//! Ordered items, their fingerprints, and how a piece of them is split into ranges.
#![tactic(auto)]

mod bound;
mod chunk;
mod entries;
mod marks;
mod order;
mod part;
mod roll;
mod run;
mod sorting;
mod split;

pub use bound::minimal_bound;
pub use chunk::Chunk;
pub use entries::Entry;
pub use roll::{Group, Roll, RollFault};
pub use split::LISTED_BELOW;
