//! The job `serve`: connections are served from a store, which is filled from a file before, whose events are kept there.
#![tactic(auto)]

mod guest;
mod run;
mod serving;
mod tending;
mod working;

pub use client_hall::Hall;
pub use guest::Guest;
pub use run::{limits_of, open_hall, readers_for, run_serve};
pub use serving::serve_beside;
pub use tending::{keep_in_hall, keep_meanwhile};
