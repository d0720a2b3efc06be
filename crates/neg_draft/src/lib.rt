//! Messages that are written from front to back.
#![tactic(auto)]

mod draft;
mod own;
mod ranges;

pub use draft::Draft;
