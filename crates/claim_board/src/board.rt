//! The board and its lanes.
ghost use Rattle.std.specs.Prelude.{◌≡◌, ◌<◌, ◌≤◌, ◌∷◌, [], ◌++◌, ℕ, List, length, slice_index, slice_get, Some, Contains, map, slice_index_or, IfOk, IfErr, ◌⊎◌};
ghost use mathlib.Core.Logic.{◌↔◌};
ghost use Rattle.fetch_plan.specs.Plan.{IsPlan};
ghost use Rattle.claim_board.specs.declared.records.BoardFault.TheVariants.{Lanes};
ghost use Rattle.claim_board.specs.Rules.{relays, IsIdOf, cell_of as cell_at};
ghost use Rattle.claim_board.specs.Steps.{with_ended, with_released, others_of};
ghost use Rattle.fetch_plan.specs.declared.cell.Cell.TheVariants.{Free, Done, Missed};
ghost use Rattle.claim_board.specs.declared.records.LaneRecord.{LaneRecord};
ghost use Rattle.claim_board.specs.Views.{BoardView, LaneView, Claims, Sees, ClosedAs, Honest, placed_at, joined};
ghost use Rattle.claim_board.specs.Rules.{fresh, named};

use crate::plays::{Claim, Compare, Cut, Finish, Glue, Look, Miss, Release};
use crate::records::{BoardFault, Claimed, Layout, Records, Rule};
use atomic_table::{Seat, Table};
use event_store::{Naming, Placed};
use fetch_plan::{Cell, Plan};
use item_key::Id;
use std::alloc::{AllocError, Global};
use std::marker::{Model, PhantomData};
use std::snapshot::Snapshot;

// The most lanes of a board.
const MOST_LANES: usize = 1024;

/// The board of a plan, whose cells are done by events of the store with this name.
pub struct Board<J: Naming> {
    table: Table<u8, Records, Snapshot<Layout>, Rule, Global>,
    layout: Layout,
    alloc: Global,
    of: PhantomData<J>,
}

// By hand, as a derived one is proved anew wherever a value is dropped.
impl<J: Naming> Drop for Board<J> {
    fn drop(self) {
        let Self {
            table: _,
            layout: _,
            alloc: _,
            of: _,
        } = self;
    }
}

impl<J: Naming> Model for Board<J> {
    ghost use Rattle.std.specs.Prelude.{◌≡◌, ◌+◌, length};
    ghost use Rattle.claim_board.specs.Views.{BoardView};

    ghost Value = { BoardView };

    ghost view = { λ b. record { board = b.table.shared.table_id; cells = b.layout.cells.items; lanes = b.layout.lanes.items } };

    ghost invariant = { λ b. (b.table.shared.key.value ≡ b.layout) × (b.table.shared.table_id.words ≡ length b.layout.cells.items + 1) × (b.table.shared.table_id.slots ≡ 0) };
}

/// A lane of a board.
#[derive(Drop)]
pub struct Lane {
    seat: Seat<u8, Records>,
    number: u16,
    relay: u16,
}

impl Model for Lane {
    ghost use Rattle.claim_board.specs.Steps.{own_of, others_of, Seated};
    ghost use Rattle.claim_board.specs.Views.{LaneView};

    ghost Value = { LaneView };

    ghost view = { λ l. record { board = l.seat.table_id; own = own_of l.seat.me.0; others = others_of l.seat.me.0 } };

    ghost invariant = { λ l. Seated l.seat.me l.number l.relay };
}

impl Lane {
    /// The relay that was named for it.
    pub fn relay(&self) -> u16
        ensures { result ≡ self.now.own.relay }
    {
        self.relay
    }
}

fn cell_of(word: u64) -> Cell
    requires { word < 4096 }
    ensures { result ≡ cell_at word }
{
    if word == 0 {
        Cell::Free
    } else if word % 4 == 1 {
        Cell::Held((word / 4) as u16)
    } else if word % 4 == 2 {
        Cell::Done
    } else {
        Cell::Missed
    }
}

// A copy of a slice.
fn copied<T: Copy>(alloc: Global, from: &[T]) -> Result<Vec<T>, AllocError>
    ensures { IfOk result (λ v. v.items ≡ from.now) }
{
    let mut to = Vec::new(alloc);
    to.extend_from_slice(from)?;
    Ok(to)
}

// The ids of a plan, and the relays that they are given to.
fn cells_of(alloc: Global, plan: &Plan) -> Result<Vec<(Id, u16)>, AllocError>
    ensures cells { IfOk result (λ v. v.items ≡ plan.now.gives) }
    ensures plan { IsPlan plan.now }
{
    let mut cells = Vec::with_capacity(alloc, plan.len())?;
    for i in 0..plan.len() {
        cells.push(plan.cell(i))?;
    }
    Ok(cells)
}

impl<J: Naming> Board<J> {
    // A board with a seat that stands for all lanes.
    fn open(
        alloc: Global,
        plan: &Plan,
        lanes: &[u16],
    ) -> Result<(Board<J>, Seat<u8, Records>), AllocError>
        requires { length lanes.now ≤ 1024 }
        ensures board { IfOk result (λ r. (r.0.cells ≡ plan.now.gives) × (r.0.lanes ≡ lanes.now)) }
        ensures seat { IfOk result (λ r. (r.1.table_id ≡ r.0.board) × (r.1.me ≡ (named 0 lanes.now, []))) }
    {
        let layout = Layout {
            cells: cells_of(alloc, plan)?,
            lanes: copied(alloc, lanes)?,
        };
        let words = Vec::from_elem(alloc, 0u64, plan.len() + 1)?;
        let about = Snapshot::of(&layout);
        let (table, seat) = Table::of_words(alloc, words.as_slice(), &about)?;
        let board = Board {
            table,
            layout,
            alloc,
            of: PhantomData,
        };
        Ok((board, seat))
    }

    // A lane for each relay that is named.
    fn deal(&self, mut rest: Seat<u8, Records>, lanes: &[u16]) -> Result<Vec<Lane>, AllocError>
        requires { (rest.table_id ≡ self.now.board) × (rest.me ≡ (named 0 lanes.now, [])) × (length lanes.now ≤ 1024) }
        ensures { IfOk result (λ v. v.items ≡ map (placed_at self.now.board) (named 0 lanes.now)) }
    {
        let mut given = Vec::new(self.alloc);
        for i in 0..lanes.len() {
            let lane = self.part(&mut rest, i as u16, lanes[i]);
            given.push(lane)?;
        }
        Ok(given)
    }

    /// A lane for each relay that is named, and all cells free.
    pub fn new(
        alloc: Global,
        plan: &Plan,
        lanes: &[u16],
    ) -> Result<(Board<J>, Vec<Lane>), BoardFault>
        ensures board { IfOk result (λ r. (r.0.cells ≡ plan.now.gives) × (r.0.lanes ≡ lanes.now)) }
        ensures lanes { IfOk result (λ r. r.1.items ≡ map (placed_at r.0.board) (named 0 lanes.now)) }
        ensures count { IfOk result (λ _. (0 < length lanes.now) × (length lanes.now ≤ 1024)) }
        ensures fault { IfErr result (λ f. (f ≡ Lanes) ↔ ((length lanes.now ≡ 0) ⊎ (1024 < length lanes.now))) }
    {
        if lanes.is_empty() || lanes.len() > MOST_LANES {
            return Err(BoardFault::Lanes);
        }
        let Ok((board, seat)) = Board::open(alloc, plan, lanes) else {
            return Err(BoardFault::Memory);
        };
        let Ok(given) = board.deal(seat, lanes) else {
            return Err(BoardFault::Memory);
        };
        Ok((board, given))
    }

    /// The number of cells.
    pub fn len(&self) -> usize
        ensures { result ≡ length self.now.cells }
    {
        self.layout.cells.len()
    }

    /// A cell's id, in ascending order, and the relay that it is given to.
    pub fn cell(&self, i: usize) -> (Id, u16)
        requires { i < length self.now.cells }
        ensures value { slice_get self.now.cells i ≡ Some result }
        ensures relay { slice_index (relays self.now.cells) i ≡ result.1 }
    {
        self.layout.cells[i]
    }

    /// The lane holds the cell from now on, or is told what it was found as.
    pub fn claim(&self, lane: &mut Lane, cell: usize) -> Claimed
        requires board { lane.old.board ≡ self.now.board }
        requires cell { (cell < length self.now.cells) × (lane.old.own.relay ≡ slice_index (relays self.now.cells) cell) }
        ensures same { (lane.new.board ≡ lane.old.board) × (lane.new.others ≡ lane.old.others) }
        ensures claimed { Claims cell lane.old.own result lane.new.own }
    {
        let word = 4 * (lane.number as u64) + 1;
        let found = self
            .table
            .shared
            .compare_exchange::<Claim>(&mut lane.seat, cell + 1, 0, word);
        if found == 0 {
            Claimed::Won
        } else {
            Claimed::Lost(cell_of(found))
        }
    }

    /// What the cell is found as.
    pub fn look(&self, lane: &mut Lane, cell: usize) -> Cell
        requires board { lane.old.board ≡ self.now.board }
        requires cell { cell < length self.now.cells }
        ensures same { (lane.new.board ≡ lane.old.board) × (lane.new.others ≡ lane.old.others) }
        ensures seen { Sees cell lane.old.own result lane.new.own }
    {
        let found = self.table.shared.load::<Look>(&mut lane.seat, cell + 1);
        cell_of(found)
    }

    /// The cell that the lane holds is done, since its event is in the board's store.
    pub fn finish(&self, lane: &mut Lane, cell: usize, placed: &Placed<J>)
        requires board { lane.old.board ≡ self.now.board }
        requires cell { (cell < length self.now.cells) × Contains lane.old.own.held cell }
        requires placed { IsIdOf self.now.cells cell placed.now.id }
        ensures { lane.new ≡ record lane.old { own = with_ended cell Done lane.old.own } }
    {
        let _ = placed;
        let word = 4 * (lane.number as u64) + 2;
        self.table
            .shared
            .swap::<Finish>(&mut lane.seat, cell + 1, word);
    }

    /// The cell that the lane holds is missed.
    pub fn miss(&self, lane: &mut Lane, cell: usize)
        requires board { lane.old.board ≡ self.now.board }
        requires cell { (cell < length self.now.cells) × Contains lane.old.own.held cell }
        ensures { lane.new ≡ record lane.old { own = with_ended cell Missed lane.old.own } }
    {
        let word = 4 * (lane.number as u64) + 3;
        self.table
            .shared
            .swap::<Miss>(&mut lane.seat, cell + 1, word);
    }

    /// The cell that the lane holds is free again.
    pub fn release(&self, lane: &mut Lane, cell: usize)
        requires board { lane.old.board ≡ self.now.board }
        requires cell { (cell < length self.now.cells) × Contains lane.old.own.held cell }
        ensures { lane.new ≡ record lane.old { own = with_released cell lane.old.own } }
    {
        self.table
            .shared
            .swap::<Release>(&mut lane.seat, cell + 1, 0);
    }

    /// The keeper stands for the lanes that the other stood for, with their lists.
    pub fn leave(&self, keeper: &mut Lane, lane: Lane)
        requires board { (keeper.old.board ≡ self.now.board) × (lane.board ≡ self.now.board) }
        requires nothing { lane.own.held ≡ [] }
        ensures { keeper.new ≡ joined keeper.old lane }
    {
        let Lane {
            seat,
            number: _,
            relay: _,
        } = lane;
        self.table.shared.join_seat::<Glue>(&mut keeper.seat, seat);
    }

    /// Whatever other lanes did, no cell is held by both of these. They come back as they were; the second stands for no
    /// lanes that left.
    pub fn hold_apart(&self, lane: Lane, other: Lane) -> (Lane, Lane)
        requires board { (lane.board ≡ self.now.board) × (other.board ≡ self.now.board) }
        requires alone { other.others ≡ [] }
        ensures same { (result.0 ≡ lane) × (result.1 ≡ other) }
        ensures apart { (i : ℕ) → Contains lane.own.held i → Contains other.own.held i → ⊥ }
    {
        let Lane {
            seat: first,
            number,
            relay,
        } = lane;
        let Lane {
            seat: mut both,
            number: other_number,
            relay: other_relay,
        } = other;
        self.table.shared.join_seat::<Glue>(&mut both, first);
        self.table.shared.load::<Compare>(&mut both, 0);
        let own = self.table.shared.split_seat::<Cut>(&mut both);
        let lane = Lane {
            seat: both,
            number,
            relay,
        };
        let other = Lane {
            seat: own,
            number: other_number,
            relay: other_relay,
        };
        (lane, other)
    }

    // The first lane of a view goes to a lane of its own.
    fn part(&self, rest: &mut Seat<u8, Records>, number: u16, relay: u16) -> Lane
        requires board { rest.old.table_id ≡ self.now.board }
        requires first { (more : List LaneRecord) × (rest.old.me ≡ (fresh number relay ∷ more, [])) }
        ensures board { rest.new.table_id ≡ rest.old.table_id }
        ensures rest { rest.new.me ≡ (others_of rest.old.me.0, []) }
        ensures lane { result ≡ placed_at self.now.board (fresh number relay) }
    {
        let seat = self.table.shared.split_seat::<Cut>(rest);
        Lane {
            seat,
            number,
            relay,
        }
    }

    /// Ends the board, and tells what each cell is.
    pub fn close(self, lane: Lane) -> Result<Vec<Cell>, (AllocError, Board<J>, Lane)>
        requires board { lane.board ≡ self.board }
        requires nothing { lane.own.held ≡ [] }
        ensures ok { IfOk result (λ v. (length v.items ≡ length self.cells) × ((i : ℕ) → i < length self.cells → ClosedAs (length self.lanes) lane i (slice_index_or v.items i Free))) }
        ensures honest { IfOk result (λ _. Honest self.cells self.lanes lane) }
        ensures err { IfErr result (λ e. (e.1 ≡ self) × (e.2 ≡ lane)) }
    {
        let mut cells = Vec::new(self.alloc);
        if let Err(refused) = cells.reserve(self.layout.cells.len()) {
            return Err((refused, self, lane));
        }
        let Board {
            table,
            layout,
            alloc: _,
            of: _,
        } = self;
        let Lane {
            seat,
            number: _,
            relay: _,
        } = lane;
        let closed = table.close_with(seat);
        for i in 0..layout.cells.len() {
            cells.push_reserved(cell_of(closed.word(i + 1)));
        }
        closed.free();
        Ok(cells)
    }
}
