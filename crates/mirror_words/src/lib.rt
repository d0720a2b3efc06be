//! The words that the program takes, and the job that they name.
#![tactic(auto)]

mod usage;
mod version;
mod words;

pub use usage::{WordsFault, words_of};
pub use words::{Words, read_words};
