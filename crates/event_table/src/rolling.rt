//! The roll of a store's events, and what it finds.
ghost use Rattle.std.specs.Prelude.{◌≡◌, ◌≤◌, ◌∷◌, ◌++◌, [], List, length, map, take, IsPermutation, IfOk, OnOk};
ghost use Rattle.std.specs.Arc.{arc_value};
ghost use Rattle.item_key.specs.declared.Item.{Item as ItemView};
ghost use Rattle.nostr_event.specs.EventView.{item_of};
ghost use Rattle.event_table.specs.States.{IsRolled};

use event_list::EventList;
use item_key::Item;
use item_roll::Roll;
use std::alloc::{AllocError, Global};
use std::sync::Arc;

// A roll gets so many items at once. Each one alone would copy a chunk, which the published roll shares.
const BATCH: usize = 512;

// Puts an item in its place.
fn put_item(roll: &mut Roll, item: Item) -> Result<(), AllocError>
    ensures { OnOk result ((items : List ItemView) → IsPermutation items roll.old → IsPermutation (items ++ item ∷ []) roll.new) }
{
    let _ = roll.len();
    match roll.insert(item) {
        Ok(()) => Ok(()),
        Err(_) => Err(AllocError),
    }
}

// The items of the events from a place on, in the roll's order: so each is put in near the one before it, where memory is at hand.
fn items_from(alloc: Global, events: &EventList, start: usize) -> Result<Vec<Item>, AllocError>
    requires { start ≤ length events.now }
    ensures { IfOk result (λ v. IsPermutation (map item_of events.now) (map item_of (take start events.now) ++ v.items)) }
{
    let mut items = Vec::with_capacity(alloc, events.len() - start)?;
    for place in start..events.len() {
        items.push(events.get(place).item())?;
    }
    items.sort_unstable_by(|a: &Item, b: &Item| a.compare(b));
    Ok(items)
}

// Puts the items of the events that the roll hasn't in their places.
fn put_items(alloc: Global, roll: &mut Roll, events: &EventList) -> Result<(), AllocError>
    requires { IsRolled events.now roll.old }
    ensures { OnOk result (IsPermutation (map item_of events.now) roll.new) }
{
    let start = roll.len();
    let items = items_from(alloc, events, start)?;
    for at in 0..items.len() {
        put_item(roll, items[at])?;
    }
    Ok(())
}

// The roll of all events.
fn roll_of(alloc: Global, events: &EventList) -> Result<Roll, AllocError>
    ensures { IfOk result (λ r. IsPermutation (map item_of events.now) r) }
{
    let items = items_from(alloc, events, 0)?;
    match Roll::from_vec(alloc, items) {
        Ok(roll) => Ok(roll),
        Err(_) => Err(AllocError),
    }
}

/// A roll of all events, where one has the items of the first of them.
pub fn roll_of_all(
    alloc: Global,
    roll: &Arc<Roll>,
    events: &EventList,
) -> Result<Arc<Roll>, AllocError>
    requires { IsRolled events.now (arc_value roll.now) }
    ensures { IfOk result (λ r. IsPermutation (map item_of events.now) (arc_value r)) }
{
    if roll.len() == events.len() {
        return Ok(Arc::try_clone(roll)?);
    }
    if roll.len() == 0 {
        return Ok(Arc::new(alloc, roll_of(alloc, events)?)?);
    }
    let mut all = roll.share(alloc)?;
    put_items(alloc, &mut all, events)?;
    Ok(Arc::new(alloc, all)?)
}

/// The roll over the events, which has all of them where it lacked a whole batch.
pub fn roll_over(
    alloc: Global,
    roll: &Arc<Roll>,
    events: &EventList,
) -> Result<Arc<Roll>, AllocError>
    requires { IsRolled events.now (arc_value roll.now) }
    ensures { IfOk result (λ r. IsRolled events.now (arc_value r)) }
{
    if events.len() - roll.len() < BATCH {
        return Ok(Arc::try_clone(roll)?);
    }
    roll_of_all(alloc, roll, events)
}
