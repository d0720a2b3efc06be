//! What the headline and each fetch say of the bytes of the streams that they were had over.
#![tactic(auto)]

mod laws;

pub use laws::{cells_over_streams, plan_over_streams};
