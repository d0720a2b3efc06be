//! Events of a round, and their answers.

use fetch_plan::Cell;
use item_key::Id;
use offer_table::Bases;
use std::collections::BTreeSet;

/// One event of a round. Lanes and cells go by their numbers: cell i has the i-th id of the plan, ascending, and the
/// cells of each later plan are numbered on.
#[derive(Drop)]
pub enum RoundEvent {
    /// What a relay offers.
    Report(u16, BTreeSet<Id>),
    /// The plan is made of the reports so far, over these bases: what each relay's load begins with.
    Seal(Bases),
    /// Another plan, over these bases, of the offers that the cells so far leave: without all offers of the ids
    /// that are done, and without the offer of each missed cell's id by that cell's relay.
    Again(Bases),
    /// The lane asks for the cell, to fetch its id.
    Claim(u16, usize),
    /// The lane has fetched the cell's id, which was placed.
    Finish(u16, usize),
    /// The lane's relay didn't give the cell's id.
    Miss(u16, usize),
    /// The lane gives the cell back.
    Release(u16, usize),
    /// An id was placed in the store.
    Insert(Id),
}

/// What a lane does to a cell.
#[derive(Clone, Copy)]
pub(crate) enum Touch {
    Claim,
    Finish,
    Miss,
    Release,
}

/// What an event is answered.
#[derive(Clone, Copy, PartialEq, Eq)]
pub enum Answer {
    /// The report counts.
    Taken,
    /// The plan's busiest load.
    Sealed(u64),
    /// The lane holds the cell.
    Won,
    /// What the cell is, where it isn't free.
    Lost(Cell),
    /// The cell is done.
    Finished,
    /// The cell is missed.
    MissedIt,
    /// The cell is free again.
    Released,
    /// Whether the id is new.
    Placed(bool),
    /// The event changed nothing.
    Refused(Refusal),
}

/// Why an event was refused: the first of these that holds.
#[derive(Clone, Copy, PartialEq, Eq)]
pub enum Refusal {
    /// The plan was made before.
    Sealed,
    /// The number is no relay.
    Relay,
    /// The reports together have too many ids.
    TableFull,
    /// The relay reported before.
    Double,
    /// No plan was made yet.
    NotSealed,
    /// This cell is held, the lowest one that is.
    Busy(usize),
    /// No lane has this number.
    NoLane,
    /// The last plan has no such cell.
    NoCell,
    /// The cell's id is given to another relay than the lane's.
    OtherRelay,
    /// The lane doesn't hold the cell.
    NotHeld,
    /// The cell's id was not placed before.
    NotPlaced,
}
