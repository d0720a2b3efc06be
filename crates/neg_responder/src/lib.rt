//! The answering side of a session (Negentropy protocol V1): it keeps nothing between two queries.
#![tactic(auto)]

mod answering;
mod ranges;

pub use answering::{AnswerFault, answer};
