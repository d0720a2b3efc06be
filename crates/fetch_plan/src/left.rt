//! What the cells of a plan leave out of later plans.

ghost use Rattle.std.specs.Prelude.{◌≡◌, ◌<◌, length, map, IfOk};
ghost use Rattle.sharing.specs.declared.TheConstants.{RELAYS};
ghost use Rattle.sharing.specs.Offers.{Ascend};
ghost use Rattle.fetch_plan.specs.LeftOut.{gone_beside, gone_of};

use crate::cell::Cell;
use crate::outcome::Plan;
use item_key::Id;
use offer_table::{OfferTable, RelaySet};
use std::alloc::{AllocError, Global};

/// The relays whose offers of its id a cell leaves out: all where it is done, its own where it is missed.
fn gone_relays(table: &OfferTable, cell: Cell, give: (Id, u16)) -> RelaySet
    requires { give.1 < RELAYS }
    ensures { result ≡ gone_beside table.now.offers cell give }
{
    match cell {
        Cell::Done => table.offers(&give.0),
        Cell::Missed => RelaySet::one(give.1),
        _ => RelaySet::empty(),
    }
}

/// What the plan's cells leave out of later plans of these offers: beside each of its ids those relays.
pub fn left_out(
    alloc: Global,
    table: &OfferTable,
    plan: &Plan,
    cells: &[Cell],
) -> Result<Vec<(Id, RelaySet)>, AllocError>
    requires { length cells.now ≡ length plan.now.gives }
    ensures gone { IfOk result (λ gone. gone.items ≡ gone_of table.now.offers plan.now.gives cells.now) }
    ensures ascend { IfOk result (λ gone. Ascend (map (λ o. o.0) gone.items)) }
{
    let mut gone = Vec::new(alloc);
    for at in 0..plan.len() {
        let give = plan.cell(at);
        gone.push((give.0, gone_relays(table, cells[at], give)))?;
    }
    Ok(gone)
}
