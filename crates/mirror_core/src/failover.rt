//! The plan of a next round where relays stopped.

ghost use Rattle.std.specs.Prelude.{◌≡◌, length, IfOk, OnErr};
ghost use Rattle.sharing.specs.Offers.{AreRelays, StandsFor};
ghost use Rattle.mirror_core.specs.LeftOver.{KeepsRelays, IsLeftOver, IsFailover};
ghost use Rattle.mirror_core.specs.Next.{IsLeft, IsLess};

use crate::next::strike;
use fetch_plan::{Cell, Plan, plan};
use item_key::Id;
use offer_table::{Bases, OfferTable, RelaySet};
use std::alloc::{AllocError, Global};

/// Of the relays that offer an id those that didn't stop, or all where each of them stopped.
fn kept(relays: RelaySet, stopped: RelaySet) -> RelaySet
    requires { AreRelays relays }
    ensures kept { KeepsRelays stopped relays result }
    ensures ordered { AreRelays result }
{
    let others = relays.minus(stopped);
    if others.is_empty() {
        return relays;
    }
    others
}

/// The offers of a table but those of relays that stopped, for ids that a relay which didn't stop offers as well.
pub fn left_over(
    alloc: Global,
    table: &OfferTable,
    stopped: RelaySet,
) -> Result<OfferTable, AllocError>
    ensures { IfOk result (λ left. IsLeftOver stopped table.now.offers left.offers) }
{
    let offers = table.list();
    let mut left: Vec<(Id, RelaySet)> = Vec::with_capacity(alloc, offers.len())?;
    for offer in offers {
        left.push((offer.0, kept(offer.1, stopped)))?;
    }
    match OfferTable::of_sets(alloc, left) {
        Ok(table) => Ok(table),
        // A table has no more ids than a table may have.
        Err(_) => Err(AllocError),
    }
}

/// Strikes the offers that need no further round, as [`crate::next_plan`] does, and plans what is left over these bases without
/// the offers of relays that stopped, for ids that a relay which didn't stop offers as well. The table keeps these offers, so that
/// a later round may come back to them.
pub fn failover_plan(
    alloc: Global,
    table: &mut OfferTable,
    last: &Plan,
    cells: &[Cell],
    stopped: RelaySet,
    bases: &Bases,
) -> Result<Plan, AllocError>
    requires { length cells.now ≡ length last.now.gives }
    ensures left { IfOk result (λ _. StandsFor table.new.offers (IsLeft table.old.offers last.now.gives cells.now)) }
    ensures planned { IfOk result (IsFailover bases.now stopped table.new.offers) }
    ensures reported { table.new.reported ≡ table.old.reported }
    ensures err { OnErr result (IsLess table.old.offers last.now.gives cells.now table.new.offers) }
{
    strike(alloc, table, last, cells)?;
    let left = left_over(alloc, table, stopped)?;
    plan(alloc, &left, bases)
}
