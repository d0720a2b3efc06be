//! What the words of the board mean, what a seat knows, and the rule that ties them.

use atomic_table::TableRule;
use fetch_plan::Cell;
use item_key::Id;
use std::alloc::AllocError;
use std::collections::LinkedList;
use std::snapshot::Snapshot;
use thiserror::Error;

/// What a claim answers: `Lost` has what the cell was found as.
#[derive(Clone, Copy)]
pub enum Claimed {
    Won,
    Lost(Cell),
}

/// Why no board was made.
#[derive(Debug, Clone, Copy, PartialEq, Eq, Error)]
pub enum BoardFault {
    /// There is no lane, or there are more than 1,024.
    #[error("no lane, or more than 1,024 lanes")]
    Lanes,
    /// No memory was found.
    #[error("out of memory")]
    Memory,
}

impl From<AllocError> for BoardFault {
    ghost use Rattle.std.specs.Prelude.{◌≡◌};
    ghost use Rattle.claim_board.specs.declared.records.BoardFault.TheVariants.{Memory};

    ghost from_gives = { λ _ e. e ≡ Memory };

    fn from(_error: AllocError) -> BoardFault {
        BoardFault::Memory
    }
}

/// The cells of a plan, each an id and the relay that it is given to, and the relay of each lane.
#[derive(Drop)]
pub struct Layout {
    pub cells: Vec<(Id, u16)>,
    pub lanes: Vec<u16>,
}

/// What a view says of one lane that it stands for. No value of it is made.
pub struct LaneRecord {
    pub lane: u64,
    pub relay: u64,
    /// The cells that it holds.
    pub held: LinkedList<u64>,
    /// The cells that it ended, each with `Done` or `Missed`.
    pub ended: LinkedList<(u64, Cell)>,
    /// The cells that it ever won.
    pub won: LinkedList<u64>,
    /// The cells that it met held or ended, as it found them.
    pub met: LinkedList<(u64, Cell)>,
}

/// A view: what it says of each lane that it stands for.
pub type Records = LinkedList<LaneRecord>;

/// The rule of the board.
pub struct Rule;

impl TableRule<u8, Records, Snapshot<Layout>> for Rule {
    ghost use Rattle.claim_board.specs.Rules.{Kept, relays, named};

    ghost holds = { λ key. Kept (relays key.value.cells.items) key.value.lanes.items };

    ghost first = { λ key. named 0 key.value.lanes.items };
}
