//! Slices of time, and what becomes of them.

/// The times from the first to the last, both within, in seconds since 1970.
#[derive(Clone, Copy, PartialEq, Eq)]
pub struct Slice {
    pub since: u64,
    pub until: u64,
}

/// What became of a slice.
#[derive(Clone, Copy)]
pub enum Ending {
    /// It was taken.
    Taken,
    /// It was given up.
    GivenUp,
}
