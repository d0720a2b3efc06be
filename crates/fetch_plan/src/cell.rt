//! Cells.

/// What became of one id of a plan.
#[derive(Clone, Copy, PartialEq, Eq)]
pub enum Cell {
    /// No lane holds it.
    Free,
    /// The lane with this number fetches it.
    Held(u16),
    /// It was fetched and placed.
    Done,
    /// Its relay was asked and did not give it.
    Missed,
}
