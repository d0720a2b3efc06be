//! Workers, each on its lane and with its source.

ghost use Rattle.std.specs.Prelude.{◌≡◌, ◌<◌, ◌^◌, ◌-◌, ◌++◌, ◌∷◌, [], List, All, length, ℕ, IfSome};
ghost use Rattle.std.specs.Thread.{IsSync, IsSend};
ghost use Rattle.item_key.specs.declared.Id.{Id};
ghost use Rattle.claim_board.specs.Views.{LaneView, all_of};
ghost use Rattle.mirror_core.specs.Six.{AllSix};
ghost use Rattle.mirror_core.specs.Working.{IsUnused};
ghost use Rattle.mirror_core.specs.Closing.{AllBack, Closed, behind};

use claim_board::{Board, Cell, Lane};
use event_source::Source;
use event_store::Naming;
use std::alloc::Global;
use std::sync::Wait;
use std::thread::{Threads, join_mut};

/// What a worker does on its lane and with its source, and how it ends.
pub(crate) trait Duty<J: Naming, S: Source, E> {
    /// A lane and a source came from the first to the second over these cells, and the worker ended so.
    ghost did: { List (Id × ℕ) → LaneView → LaneView → S → S → E → Type 0 };

    fn work<R: Wait>(
        &self,
        rt: &R,
        alloc: Global,
        board: &Board<J>,
        lane: &mut Lane,
        source: &mut S,
    ) -> E
        requires board { lane.old.board ≡ board.now.board }
        requires unused { IsUnused lane.old.own }
        requires ready { S.faults source.old < 2 ^ 64 - 1 }
        ensures { did board.now.cells lane.old lane.new source.old source.new result };
}

/// The worker of each lane with the source of its place, each in a thread of its own, and how each ended.
#[cycle(workers)]
pub(crate) fn run_workers<
    R: Threads + Wait + Sync,
    J: Naming + Sync,
    S: Source + Send,
    E: Drop + Send,
    H: Duty<J, S, E> + Sync,
>(
    rt: &R,
    alloc: &Global,
    board: &Board<J>,
    duty: &H,
    lanes: &mut [Lane],
    sources: &mut [S],
    stops: &mut [E],
)
    requires same { (length lanes.old ≡ length sources.old) × (length lanes.old ≡ length stops.old) }
    requires unused { All (λ l. (l.board ≡ board.now.board) × IsUnused l.own) lanes.old }
    requires ready { All (λ s. S.faults s < 2 ^ 64 - 1) sources.old }
    ensures { AllSix (λ l m s t _ stop. H.did board.now.cells l m s t stop) lanes.old lanes.new sources.old sources.new stops.old stops.new }
{
    if lanes.is_empty() {
        return;
    }
    if lanes.len() == 1 {
        stops[0] = duty.work(rt, *alloc, board, &mut lanes[0], &mut sources[0]);
        return;
    }
    let half = lanes.len() / 2;
    let (front, back) = lanes.split_at_mut(half);
    let (near, far) = sources.split_at_mut(half);
    let (first, last) = stops.split_at_mut(half);
    join_mut(
        rt,
        &mut ||
            requires { IsSync R.row × IsSync J.row × IsSend S.row × IsSend E.row × IsSync H.row × (length front.now ≡ length near.now) × (length front.now ≡ length first.now) × All (λ l. (l.board ≡ board.now.board) × IsUnused l.own) front.now × All (λ s. S.faults s < 2 ^ 64 - 1) near.now }
            ensures { AllSix (λ l m s t _ stop. H.did board.entry.now.cells l m s t stop) front.entry.now front.exit.now near.entry.now near.exit.now first.entry.now first.exit.now }
        { run_workers(rt, alloc, board, duty, front, near, first) },
        &mut ||
            requires { IsSync R.row × IsSync J.row × IsSend S.row × IsSend E.row × IsSync H.row × (length back.now ≡ length far.now) × (length back.now ≡ length last.now) × All (λ l. (l.board ≡ board.now.board) × IsUnused l.own) back.now × All (λ s. S.faults s < 2 ^ 64 - 1) far.now }
            ensures { AllSix (λ l m s t _ stop. H.did board.entry.now.cells l m s t stop) back.entry.now back.exit.now far.entry.now far.exit.now last.entry.now last.exit.now }
        { run_workers(rt, alloc, board, duty, back, far, last) },
    );
}

/// Closes the board once all its lanes have come back, of which there is one at least. None for want of memory.
pub(crate) fn close_all<J: Naming>(board: Board<J>, mut lanes: Vec<Lane>) -> Option<Vec<Cell>>
    requires { AllBack board.board lanes.items }
    ensures { IfSome result (λ v. (keeper : LaneView) × (all_of keeper ≡ behind lanes.items) × Closed board.cells board.lanes keeper v.items) }
{
    let mut keeper = lanes.pop()?;
    while let Some(lane) = lanes.pop() {
        board.leave(&mut keeper, lane);
    }
    match board.close(keeper) {
        Ok(cells) => Some(cells),
        Err(_) => None,
    }
}
