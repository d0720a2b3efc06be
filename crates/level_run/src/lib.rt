//! The job `mirror`: a store that is kept level with relays, and served meanwhile where that is asked for.
#![tactic(auto)]

mod run;

pub use run::run_mirror;
