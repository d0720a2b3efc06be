//! A store while a job goes on: its events are read from a file at the start, and kept there meanwhile. With it stands
//! what all jobs over a store have in common: why one is refused, workers side by side, and what is printed.
#![tactic(auto)]

mod beside;
mod filling;
mod keeping;
mod refusal;
mod saving;
mod saying;
mod workers;

pub use beside::{Ending, TICK, Tend, tend_beside};
pub use keeping::{Clerk, Keeping, keep_beside, keeping_of};
pub use refusal::{Refusal, read_refusal, write_refusal};
pub use saving::begin;
pub use saying::say;
pub use workers::{Duty, run_workers};
