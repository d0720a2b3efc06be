//! Sharing the offered ids out among the relays, so that the busiest relay's load is as small as possible.
#![tactic(auto)]

ghost use Rattle.std.specs.Prelude.{◌≡◌, ◌≤◌, ℕ, length, IfOk};
ghost use Rattle.sharing.specs.Bases.{base_of, AreBases};
ghost use Rattle.sharing.specs.Sharing.{NoneSmaller};
ghost use Rattle.sharing.specs.Offers.{IsOffers};
ghost use Rattle.sharing.specs.declared.TheConstants.{MOST_IDS};
ghost use Rattle.fetch_plan.specs.Takers.{at};
ghost use Rattle.fetch_plan.specs.Plan.{IsPlanOf};

mod balance;
mod cell;
mod chains;
mod dealing;
mod left;
mod loads;
mod outcome;
mod search;
mod takers;

pub use cell::Cell;
use chains::{greatest, settle};
use dealing::{suggested, suggested_of};
use item_key::Id;
pub use left::left_out;
use offer_table::{Bases, OfferTable, RelaySet};
pub use outcome::Plan;
use sharing::{RELAYS, SLOTS};
use std::alloc::{AllocError, Global};
use takers::{add_loads, choose, give};

/// What the relays' loads begin with.
fn loads_of(bases: &Bases) -> [u64; SLOTS]
    ensures loads { (r : ℕ) → at result r ≡ base_of bases.now r }
    ensures bases { AreBases bases.now }
{
    let mut loads = [0; SLOTS];
    for relay in 0..RELAYS {
        loads[usize::from(relay)] = bases.of(relay);
    }
    loads
}

/// Shares the ids of offers out, each as it is suggested, or better.
fn plan_by(
    alloc: Global,
    offers: &[(Id, RelaySet)],
    suggested: Vec<u16>,
    bases: &Bases,
) -> Result<Plan, AllocError>
    requires offers { IsOffers offers.now }
    requires few { length offers.now ≤ MOST_IDS }
    ensures planned { IfOk result (IsPlanOf bases.now offers.now) }
    ensures least { IfOk result (λ plan. NoneSmaller (base_of bases.now) offers.now plan.least_max) }
{
    let mut takers = choose(alloc, offers, &suggested)?;
    let mut loads = loads_of(bases);
    add_loads(&takers, &mut loads);
    let reached = settle(alloc, offers, &mut takers, &mut loads)?;
    let gives = give(alloc, offers, &takers)?;
    let least_max = greatest(&loads);
    let group = if least_max == 0 {
        RelaySet::empty()
    } else {
        reached
    };
    Ok(Plan {
        bases: *bases,
        gives,
        loads,
        least_max,
        group,
    })
}

/// Shares the ids out over what the relays' loads begin with, so that the busiest relay's load is as small as
/// possible. The group that it answers is the set of the relays that chains of single moves reach.
pub fn plan(alloc: Global, table: &OfferTable, bases: &Bases) -> Result<Plan, AllocError>
    ensures planned { IfOk result (IsPlanOf bases.now table.now.offers) }
    ensures least { IfOk result (λ plan. NoneSmaller (base_of bases.now) table.now.offers plan.least_max) }
{
    let suggested = suggested(alloc, table, bases)?;
    plan_by(alloc, table.list(), suggested, bases)
}

/// The same as [`plan`] of offers that are in no table: ids in order, each with the set of relays that offer it.
pub fn plan_offers(
    alloc: Global,
    offers: &[(Id, RelaySet)],
    bases: &Bases,
) -> Result<Plan, AllocError>
    requires offers { IsOffers offers.now }
    requires few { length offers.now ≤ MOST_IDS }
    ensures planned { IfOk result (IsPlanOf bases.now offers.now) }
    ensures least { IfOk result (λ plan. NoneSmaller (base_of bases.now) offers.now plan.least_max) }
{
    let suggested = suggested_of(alloc, offers, bases)?;
    plan_by(alloc, offers, suggested, bases)
}
