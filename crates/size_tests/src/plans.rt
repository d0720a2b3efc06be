//! A plan of some 200,000 ids.

use crate::tables::ids;
use fetch_plan::{Plan, plan};
use offer_table::{Bases, OfferTable};
use std::alloc::Global;
use std::test::Fail;

/// A relay's report of the ids of these numbers.
fn report(alloc: Global, relay: u16, first: u32, last: u32) -> Option<OfferTable> {
    OfferTable::of_report(alloc, relay, &ids(alloc, first, last).ok()?).ok()
}

/// The plan of 100,000 ids on relays 0 and 1, 50,000 on 1 and 2, and 30,000 on 2 alone.
fn three_groups(alloc: Global) -> Option<Plan> {
    let first = report(alloc, 0, 0, 100_000)?;
    let second = report(alloc, 1, 0, 150_000)?;
    let third = report(alloc, 2, 100_000, 180_000)?;
    let table = first.merge(second).ok()?.merge(third).ok()?;
    plan(alloc, &table, &Bases::none()).ok()
}

/// Whether these relays and no others are the plan's group.
fn has_group(made: &Plan, group: &[u16]) -> bool {
    let mut all = true;
    for relay in 0u16..300 {
        all = all && made.group().has(relay) == group.contains(&relay);
    }
    all
}

/// Whether the busiest relay has 60,000 ids: 180,000 are more than 3 * 59,999.
fn is_least(alloc: Global) -> Option<bool> {
    let made = three_groups(alloc)?;
    Some(made.len() == 180_000 && made.least_max() == 60_000 && has_group(&made, &[0, 1, 2]))
}

#[test]
fn three_large_groups(rt: HostRuntime) -> Result<(), Fail> {
    assert!(rt; is_least(rt.alloc()) == Some(true));
    Ok(())
}
