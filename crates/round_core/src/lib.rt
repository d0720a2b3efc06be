//! A round as a pure machine: reports, the plan that is made of them, the lanes that work on its cells, and later
//! plans of the offers that are left.
#![tactic(auto)]

mod events;
mod round;
mod rules;

pub(crate) use events::Touch;
pub use events::{Answer, Refusal, RoundEvent};
pub use round::{Round, cell_is, finished_once, legal_begins, one_holder};
