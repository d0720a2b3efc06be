//! The job `sync`: events are compared with relays' and fetched, and served meanwhile where that is asked for.
#![tactic(auto)]

mod run;

pub use run::{run_sync, run_sync_with};
