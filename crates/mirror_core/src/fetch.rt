//! Fetching the cells of a board from sources, each with a lane of its own.

ghost use Rattle.std.specs.Prelude.{◌≡◌, ◌≢◌, ◌<◌, ◌^◌, ◌-◌, All, map, length, ℕ, Err, IfOk, IfErr};
ghost use Rattle.claim_board.specs.Rules.{named};
ghost use Rattle.claim_board.specs.Views.{placed_at};
ghost use Rattle.mirror_core.specs.Three.{AllThree};
ghost use Rattle.mirror_core.specs.Fetched.{EachEnds, Fetches, logs_gained};
ghost use Rattle.mirror_core.specs.Asked.{AskInOrder};

use crate::worker::Stop;
use crate::workers::{close_all, run_workers};
use claim_board::{Board, Cell, Lane};
use event_source::Source;
use event_store::{Desk, Naming};
use std::alloc::{AllocError, Global};
use std::sync::{Mutex, Wait};
use std::thread::Threads;
use thiserror::Error;

/// Why nothing is told of a board's cells.
#[derive(Clone, Copy, Debug, Error)]
pub enum FetchFault {
    /// There are not as many sources as lanes, or there are none.
    #[error("not as many sources as lanes")]
    Lanes,
    /// No memory was found.
    #[error("out of memory")]
    Memory,
}

impl From<AllocError> for FetchFault {
    ghost use Rattle.std.specs.Prelude.{◌≡◌};
    ghost use Rattle.mirror_core.specs.declared.fetch.FetchFault.TheVariants.{Memory};

    ghost from_gives = { λ _ e. e ≡ Memory };

    fn from(_error: AllocError) -> FetchFault {
        FetchFault::Memory
    }
}

/// What became of each cell of a board, and how each worker ended.
#[derive(Drop)]
pub struct FetchReport<J: Naming> {
    pub cells: Vec<Cell>,
    pub stops: Vec<Stop<J>>,
}

/// A place for the end of each worker.
fn places<J: Naming>(alloc: Global, count: usize) -> Result<Vec<Stop<J>>, AllocError>
    ensures { IfOk result (λ v. length v.items ≡ count) }
{
    let mut stops = Vec::with_capacity(alloc, count)?;
    for _ in 0..count {
        stops.push(Stop::Through)?;
    }
    Ok(stops)
}

/// Lets each source work the lane with its number, each in a thread of its own: it claims cells of the lane's relay, up to
/// 100 at a time, is asked for their ids, and each event that was asked for is placed through the desk, those of a fetch at
/// once. A worker that stops early releases the cells that it holds.
///
/// # Errors
///
/// `Lanes` where there are not as many sources as lanes, or none, before anything is asked; else `Memory`, where the
/// board and its lanes are gone and placed events stay.
pub fn fetch_all<
    R: Threads + Wait + Sync,
    J: Naming + Send + Sync,
    D: Wait + Drop + Send + Sync,
    S: Source + Send,
>(
    rt: &R,
    alloc: Global,
    board: Board<J>,
    lanes: Vec<Lane>,
    sources: &mut [S],
    desk: &Mutex<Desk<J, D>>,
) -> Result<FetchReport<J>, FetchFault>
    requires lanes { lanes.items ≡ map (placed_at board.board) (named 0 board.lanes) }
    requires ready { All (λ s. S.faults s < 2 ^ 64 - 1) sources.old }
    ensures cells { IfOk result (λ r. EachEnds board.cells board.lanes (logs_gained S.log sources.old sources.new) r.stops.items r.cells.items) }
    ensures sources { IfOk result (λ r. AllThree (λ s t stop. Fetches (S.log s) (S.log t) (S.faults s) (S.faults t) stop × S.becomes s t) sources.old sources.new r.stops.items) }
    ensures asked { IfOk result (λ _. AskInOrder board.cells board.lanes (logs_gained S.log sources.old sources.new)) }
    ensures asked_too { IfErr result (λ _. AskInOrder board.cells board.lanes (logs_gained S.log sources.old sources.new)) }
    ensures lanes { result ≡ Err FetchFault.Lanes → length lanes.items ≢ 0 → length lanes.items ≢ length sources.old }
    ensures memory { result ≡ Err FetchFault.Memory → length lanes.items ≡ length sources.old }
    ensures some { result ≡ Err FetchFault.Memory → 0 < length lanes.items }
    ensures paired { IfOk result (λ _. (0 < length lanes.items) × (length lanes.items ≡ length sources.old)) }
    ensures unasked { result ≡ Err FetchFault.Lanes → sources.new ≡ sources.old }
{
    if lanes.len() == 0 {
        return Err(FetchFault::Lanes);
    }
    if lanes.len() != sources.len() {
        return Err(FetchFault::Lanes);
    }
    let mut stops = places(alloc, lanes.len())?;
    let mut lanes = lanes;
    run_workers(rt, &alloc, &board, desk, &mut lanes, sources, &mut stops);
    match close_all(board, lanes) {
        Some(cells) => Ok(FetchReport { cells, stops }),
        None => Err(FetchFault::Memory),
    }
}
