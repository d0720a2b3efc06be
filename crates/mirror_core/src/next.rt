//! The plan of a next round.

ghost use Rattle.std.specs.Prelude.{◌≡◌, ℕ, ◌<◌, ◌+◌, ◌==◌, if◌then◌else◌, ◌≤◌, min, length, IfOk, OnOk, OnErr};
ghost use Rattle.sharing.specs.declared.TheConstants.{RELAYS, MOST_BASE};
ghost use Rattle.sharing.specs.Bases.{base_of};
ghost use Rattle.sharing.specs.Offers.{StandsFor};
ghost use Rattle.mirror_core.specs.Next.{asked_of, is_asked, IsLeft, IsLess, IsNextPlan};

use fetch_plan::{Cell, Plan, left_out, plan};
use offer_table::{Bases, OfferTable};
use sharing::MOST_BASE;
use std::alloc::{AllocError, Global};

/// Strikes the offers that need no further round: all offers of an id whose cell is done, and a missed cell's offer of its id by
/// its relay. Where memory runs out nothing is struck.
pub(crate) fn strike(
    alloc: Global,
    table: &mut OfferTable,
    last: &Plan,
    cells: &[Cell],
) -> Result<(), AllocError>
    requires { length cells.now ≡ length last.now.gives }
    ensures left { OnOk result (StandsFor table.new.offers (IsLeft table.old.offers last.now.gives cells.now)) }
    ensures reported { table.new.reported ≡ table.old.reported }
    ensures err { OnErr result (table.new ≡ table.old) }
{
    let gone = left_out(alloc, table, last, cells)?;
    table.leave_out(&gone)?;
    Ok(())
}

/// Strikes the offers that need no further round, and plans what is left over these bases: all offers of an id whose
/// cell is done, and a missed cell's offer of its id by its relay. Where memory runs out some of those offers are
/// struck and no other, and the call may be made again.
pub fn next_plan(
    alloc: Global,
    table: &mut OfferTable,
    last: &Plan,
    cells: &[Cell],
    bases: &Bases,
) -> Result<Plan, AllocError>
    requires { length cells.now ≡ length last.now.gives }
    ensures planned { IfOk result (IsNextPlan bases.now table.old.offers last.now.gives cells.now table.new.offers) }
    ensures reported { table.new.reported ≡ table.old.reported }
    ensures err { OnErr result (IsLess table.old.offers last.now.gives cells.now table.new.offers) }
{
    strike(alloc, table, last, cells)?;
    plan(alloc, table, bases)
}

/// Lets a relay's load begin with one more, up to the most.
fn raise(bases: &mut Bases, relay: u16)
    requires { relay < RELAYS }
    ensures { (r : ℕ) → base_of bases.new r ≡ min (base_of bases.old r + (if r == relay then 1 else 0)) MOST_BASE }
{
    let load = bases.of(relay);
    if load < MOST_BASE {
        let _ = bases.set(relay, load + 1);
    }
}

/// Whether the cell's relay was asked for its id, and gave it or didn't.
fn is_asked(cell: Cell) -> bool
    ensures { result ≡ is_asked cell }
{
    matches!(cell, Cell::Done | Cell::Missed)
}

/// What the loads begin with in a next round: each relay's base and the ids that it was asked for, up to
/// [`sharing::MOST_BASE`].
pub fn grown(bases: &Bases, last: &Plan, cells: &[Cell]) -> Bases
    requires { length cells.now ≡ length last.now.gives }
    ensures { (r : ℕ) → base_of bases.now r ≤ MOST_BASE
        → base_of result r ≡ min (base_of bases.now r + asked_of last.now.gives cells.now r (length cells.now)) MOST_BASE }
{
    let mut grown = *bases;
    for at in 0..last.len() {
        if is_asked(cells[at]) {
            let (_id, relay) = last.cell(at);
            raise(&mut grown, relay);
        }
    }
    grown
}
