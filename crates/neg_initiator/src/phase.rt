//! Whether a session goes on.

/// Whether a session goes on.
#[derive(Clone, Copy, PartialEq, Eq)]
pub enum Phase {
    /// An ask waits for its reply.
    Asking,
    /// All is settled.
    Ended,
    /// A reply was refused.
    Spent,
}
