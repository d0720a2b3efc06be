//! Sums of ids, and fingerprints (Negentropy protocol V1, "Fingerprint").
#![tactic(auto)]

mod fingerprint;
mod sum;

pub use fingerprint::print;
pub use sum::Sum;
