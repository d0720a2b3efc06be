//! What each event is answered and what it changes, over the parts of a round.

ghost use Rattle.std.specs.Prelude.{◌≡◌, ◌<◌, ◌≤◌, ◌++◌, ℕ, length, map, slice_index_or, is_some, replicate, IfOk, MatchOption, false};
ghost use Rattle.std.specs.List.{list_any};
ghost use Rattle.sharing.specs.declared.TheConstants.{RELAYS};
ghost use Rattle.sharing.specs.Offers.{is_id, Ascend};
ghost use Rattle.fetch_plan.specs.declared.cell.Cell.TheVariants.{Free};
ghost use Rattle.round_core.specs.Legal.{barred, claim_answer, end_answer, is_held, is_held_by, IsLowestHeld};
ghost use Rattle.round_core.specs.Left.{gives_in, first_in, give_in, answer_in, cells_then, IsInRange, Adds, refused_by, PlansWithout};

use crate::{Answer, Refusal, Touch};
use fetch_plan::{Cell, Plan, plan};
use item_key::Id;
use offer_table::{Bases, OfferFault, OfferTable, RelaySet};
use std::alloc::{AllocError, Global};
use std::collections::BTreeSet;

/// Why a lane may not touch a cell.
fn find_refusal(
    plan: &Option<Plan>,
    lanes: &[u16],
    cells: &[Cell],
    lane: u16,
    cell: usize,
) -> Option<Refusal>
    requires { length (gives_in plan.now) ≤ length cells.now }
    ensures { result ≡ barred (is_some plan.now) lanes.now (first_in plan.now cells.now) (length cells.now) (give_in plan.now cells.now cell).1 lane cell }
{
    match plan {
        None => Some(Refusal::NotSealed),
        Some(plan) => {
            let first = cells.len() - plan.len();
            if usize::from(lane) >= lanes.len() {
                Some(Refusal::NoLane)
            } else if cell < first || cell >= cells.len() {
                Some(Refusal::NoCell)
            } else if lanes[usize::from(lane)] == plan.cell(cell - first).1 {
                None
            } else {
                Some(Refusal::OtherRelay)
            }
        }
    }
}

/// Whether the id of a cell of the last plan was placed.
fn is_cell_placed(plan: &Option<Plan>, cells: &[Cell], cell: usize, placed: &BTreeSet<Id>) -> bool
    requires long { length (gives_in plan.now) ≤ length cells.now }
    requires low { first_in plan.now cells.now ≤ cell }
    requires high { cell < length cells.now }
    ensures { result ≡ list_any (is_id (give_in plan.now cells.now cell).0) placed.now.keys }
{
    match plan {
        None => false,
        Some(plan) => {
            let first = cells.len() - plan.len();
            placed.contains(&plan.cell(cell - first).0)
        }
    }
}

/// Whether this lane holds the cell.
fn is_holder(cell: Cell, lane: u16) -> bool
    ensures { result ≡ is_held_by cell lane }
{
    match cell {
        Cell::Held(holder) => holder == lane,
        _ => false,
    }
}

/// What a claim of the cell is answered.
fn claimed(cell: Cell) -> Answer
    ensures { result ≡ claim_answer cell }
{
    match cell {
        Cell::Free => Answer::Won,
        _ => Answer::Lost(cell),
    }
}

/// What an end of a holding is answered.
fn ended(cell: Cell, lane: u16, answer: Answer) -> Answer
    ensures { result ≡ end_answer cell lane answer }
{
    if is_holder(cell, lane) {
        answer
    } else {
        Answer::Refused(Refusal::NotHeld)
    }
}

/// What a lane's touch of a cell is answered.
pub(crate) fn answer_at(
    plan: &Option<Plan>,
    lanes: &[u16],
    cells: &[Cell],
    placed: &BTreeSet<Id>,
    touch: Touch,
    lane: u16,
    cell: usize,
) -> Answer
    requires { length (gives_in plan.now) ≤ length cells.now }
    ensures { result ≡ answer_in plan.now lanes.now cells.now placed.now.keys touch lane cell }
{
    if let Some(refusal) = find_refusal(plan, lanes, cells, lane, cell) {
        return Answer::Refused(refusal);
    }
    match touch {
        Touch::Claim => claimed(cells[cell]),
        Touch::Finish => {
            let answer = if is_cell_placed(plan, cells, cell, placed) {
                Answer::Finished
            } else {
                Answer::Refused(Refusal::NotPlaced)
            };
            ended(cells[cell], lane, answer)
        }
        Touch::Miss => ended(cells[cell], lane, Answer::MissedIt),
        Touch::Release => ended(cells[cell], lane, Answer::Released),
    }
}

/// What a touch and its answer write into the cells.
pub(crate) fn write_cell(cells: &mut [Cell], touch: Touch, lane: u16, cell: usize, answer: Answer)
    requires { IsInRange answer 0 (length cells.old) cell }
    ensures { cells.new ≡ cells_then cells.old touch lane cell answer }
{
    match (touch, answer) {
        (Touch::Claim, Answer::Won) => cells[cell] = Cell::Held(lane),
        (Touch::Finish, Answer::Finished) => cells[cell] = Cell::Done,
        (Touch::Miss, Answer::MissedIt) => cells[cell] = Cell::Missed,
        (Touch::Release, Answer::Released) => cells[cell] = Cell::Free,
        _ => {}
    }
}

/// These cells, and as many free ones after them.
pub(crate) fn more_cells(
    alloc: Global,
    cells: &[Cell],
    count: usize,
) -> Result<Vec<Cell>, AllocError>
    ensures { IfOk result (λ all. all.items ≡ cells.now ++ replicate count Free) }
{
    let mut all = cells.to_vec(alloc)?;
    for _ in 0..count {
        all.push(Cell::Free)?;
    }
    Ok(all)
}

/// The lowest cell that is held.
pub(crate) fn lowest_held(cells: &[Cell]) -> Option<usize>
    ensures { MatchOption result ((k : ℕ) → is_held (slice_index_or cells.now k Free) ≡ false) (IsLowestHeld (λ k. slice_index_or cells.now k Free)) }
{
    for cell in 0..cells.len() {
        if let Cell::Held(_) = cells[cell] {
            return Some(cell);
        }
    }
    None
}

/// The plan of the table's offers without those that are gone. The table keeps them, so that it is as it was where
/// memory runs out. A table has never too many ids for another one.
pub(crate) fn plan_without(
    alloc: Global,
    table: &OfferTable,
    gone: &[(Id, RelaySet)],
    bases: &Bases,
) -> Result<Plan, AllocError>
    requires { Ascend (map (λ o. o.0) gone.now) }
    ensures { IfOk result (PlansWithout bases.now table.now.offers gone.now) }
{
    let mut left = match OfferTable::of_sets(alloc, table.list().to_vec(alloc)?) {
        Ok(left) => left,
        Err(_) => return Err(AllocError),
    };
    left.leave_out(gone)?;
    plan(alloc, &left, bases)
}

/// What a fault of a report is answered.
fn refused(fault: OfferFault) -> Result<Answer, AllocError>
    ensures { result ≡ refused_by fault }
{
    match fault {
        OfferFault::Relay => Ok(Answer::Refused(Refusal::Relay)),
        OfferFault::TableFull => Ok(Answer::Refused(Refusal::TableFull)),
        OfferFault::Double => Ok(Answer::Refused(Refusal::Double)),
        OfferFault::Memory => Err(AllocError),
    }
}

/// The table with one more report, or the table as it was, and the answer.
pub(crate) fn add_report(
    alloc: Global,
    table: OfferTable,
    relay: u16,
    need: &BTreeSet<Id>,
) -> (OfferTable, Result<Answer, AllocError>)
    ensures { Adds table relay need.now.keys result.0 result.1 }
{
    match OfferTable::of_report(alloc, relay, need) {
        Err(fault) => (table, refused(fault)),
        Ok(report) => match table.merge(report) {
            Ok(both) => (both, Ok(Answer::Taken)),
            Err((fault, mine, _report)) => (mine, refused(fault)),
        },
    }
}
