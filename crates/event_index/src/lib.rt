//! Where the events of an author, of a kind or with a tag stand in a list.
#![tactic(auto)]

mod both;
mod conditions;
mod index;
mod mark;
mod postings;
mod run;

pub use index::{BATCH, Index};
