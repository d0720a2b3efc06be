//! The asking side of a session (Negentropy protocol V1).
#![tactic(auto)]

mod fault;
mod found;
mod ids;
mod initiator;
mod phase;
mod settle;
mod trust;

pub use fault::InitFault;
pub use initiator::{Initiator, Next, Outcome};
pub use phase::Phase;
