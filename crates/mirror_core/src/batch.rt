//! Cells that a worker claims together, and fetches together.

ghost use Rattle.std.specs.Prelude.{◌≡◌, ◌<◌, ◌≤◌, ◌+◌, ◌^◌, [], ◌∷◌, ℕ, length, drop, Contains, IfOk, OnErr};
ghost use Rattle.mirror_core.specs.Batches.{Batched, Holds, SameLane};
ghost use Rattle.mirror_core.specs.Asked.{AreIdsOf};

use claim_board::{Board, Claimed, Lane};
use event_store::Naming;
use item_key::Id;
use std::alloc::{AllocError, Global};

/// The most ids that a source is asked for at a time.
const MOST_ASKED: usize = 100;

/// Cells that a lane holds, their ids, and the first cell that the lane has not come to.
pub(crate) struct Batch {
    pub cells: Vec<usize>,
    pub ids: Vec<Id>,
    pub next: usize,
}

// By hand, as a derived one is proved anew wherever a value is dropped.
impl Drop for Batch {
    fn drop(self) {
        let Self {
            cells: _,
            ids: _,
            next: _,
        } = self;
    }
}

/// Comes to the next cell, which is claimed if it is of the lane's relay.
fn claim_next<J: Naming>(board: &Board<J>, lane: &mut Lane, batch: &mut Batch)
    requires board { lane.old.board ≡ board.now.board }
    requires next { (batch.old.next < length board.now.cells) × (batch.old.next + 1 < 2 ^ 64) }
    requires room { (length batch.old.cells.items < batch.old.cells.cap) × (length batch.old.ids.items < batch.old.ids.cap) }
    requires even { length batch.old.ids.items ≡ length batch.old.cells.items }
    requires batched { Batched board.now.cells batch.old.next batch.old.cells.items batch.old.ids.items lane.old.own }
    ensures next { batch.new.next ≡ batch.old.next + 1 }
    ensures room { (batch.new.cells.cap ≡ batch.old.cells.cap) × (batch.new.ids.cap ≡ batch.old.ids.cap) }
    ensures even { length batch.new.ids.items ≡ length batch.new.cells.items }
    ensures few { length batch.new.cells.items ≤ length batch.old.cells.items + 1 }
    ensures same { SameLane lane.old lane.new }
    ensures ended { lane.new.own.ended ≡ lane.old.own.ended }
    ensures batched { Batched board.now.cells batch.new.next batch.new.cells.items batch.new.ids.items lane.new.own }
    ensures asked { (first : ℕ) → AreIdsOf board.now.cells lane.old.own.relay first batch.old.next batch.old.ids.items → AreIdsOf board.now.cells lane.old.own.relay first batch.new.next batch.new.ids.items }
{
    let at = batch.next;
    batch.next = at + 1;
    let (id, relay) = board.cell(at);
    if relay != lane.relay() {
        return;
    }
    match board.claim(lane, at) {
        Claimed::Won => {
            batch.cells.push_reserved(at);
            batch.ids.push_reserved(id);
        }
        Claimed::Lost(_) => {}
    }
}

/// Claims cells of the lane's relay from the next one on, up to the most that are asked for at a time.
pub(crate) fn fill<J: Naming>(
    alloc: Global,
    board: &Board<J>,
    lane: &mut Lane,
    next: usize,
) -> Result<Batch, AllocError>
    requires board { lane.old.board ≡ board.now.board }
    requires batched { Batched board.now.cells next [] [] lane.old.own }
    ensures same { SameLane lane.old lane.new }
    ensures ended { lane.new.own.ended ≡ lane.old.own.ended }
    ensures batched { IfOk result (λ b. Batched board.now.cells b.next b.cells.items b.ids.items lane.new.own) }
    ensures next { IfOk result (λ b. next < length board.now.cells → next < b.next) }
    ensures few { IfOk result (λ b. length b.ids.items ≤ 100) }
    ensures asked { IfOk result (λ b. AreIdsOf board.now.cells lane.old.own.relay next b.next b.ids.items) }
    ensures err { OnErr result (lane.new ≡ lane.old) }
{
    let mut batch = Batch {
        cells: Vec::with_capacity(alloc, MOST_ASKED)?,
        ids: Vec::with_capacity(alloc, MOST_ASKED)?,
        next,
    };
    while batch.next < board.len() && batch.cells.len() < MOST_ASKED {
        claim_next(board, lane, &mut batch);
    }
    Ok(batch)
}

/// Gives the cells from a place on back, which are those that the lane holds.
pub(crate) fn release_from<J: Naming>(
    board: &Board<J>,
    lane: &mut Lane,
    cells: &[usize],
    first: usize,
)
    requires board { lane.old.board ≡ board.now.board }
    requires holds { Holds (drop first cells.now) lane.old.own }
    requires within { (i : ℕ) → Contains (drop first cells.now) i → i < length board.now.cells }
    ensures same { SameLane lane.old lane.new }
    ensures ended { lane.new.own.ended ≡ lane.old.own.ended }
    ensures held { lane.new.own.held ≡ [] }
{
    for k in first..cells.len() {
        board.release(lane, cells[k]);
    }
}
