//! How much a connection has brought.

/// How many messages of a connection are read.
pub const MOST_READS: u64 = 1_000_000;

/// How much a connection has brought.
#[derive(Clone, Copy)]
pub struct Counts {
    /// How many messages.
    pub reads: u64,
    /// How many of these were texts.
    pub texts: u64,
}
