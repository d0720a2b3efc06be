//! Placing the items of a list.

ghost use Rattle.std.specs.Prelude.{◌+◌, ◌^◌, ◌<◌, length, IfOk, IfErr, IfSome, IfNone, OnOk, IsPermutation};
ghost use Rattle.mirror_run.specs.Placing.{IsTaken, IsFirstRefused};
ghost use Rattle.mirror_run.specs.Refused.{IsPlacingRefusal};

use crate::refusal::{LineFault, Refusal};
use item_key::Item;
use item_roll::{Roll, RollFault};
use std::alloc::{AllocError, Global};
use std::collections::BTreeSet;

/// The first item that its list doesn't take, at its place from 0 on, and why.
fn first_refused(alloc: Global, items: &[Item]) -> Result<Option<(usize, LineFault)>, AllocError>
    ensures refused { IfOk result (λ found. IfSome found (λ f. IsFirstRefused items.now f.0 f.1)) }
    ensures taken { IfOk result (λ found. IfNone found (IsTaken items.now)) }
{
    let mut placed = BTreeSet::new(alloc);
    for (i, item) in items.iter().enumerate() {
        if item.time == u64::MAX {
            return Ok(Some((i, LineFault::Infinity)));
        }
        if placed.contains(item) {
            return Ok(Some((i, LineFault::Present)));
        }
        if i >= 1_000_000 {
            return Ok(Some((i, LineFault::Full)));
        }
        placed.insert(*item)?;
    }
    Ok(None)
}

/// Why the items, the first of which stands on the line, make no roll.
fn refusal_of(alloc: Global, items: &[Item], line: usize) -> Refusal
    requires some { IsTaken items.now → ⊥ }
    requires fits { line + length items.now < 2 ^ 64 }
    ensures { IsPlacingRefusal items.now line result }
{
    match first_refused(alloc, items) {
        Ok(Some((i, fault))) => Refusal::Line(line + i, fault),
        Ok(None) => unreachable!(),
        Err(AllocError) => Refusal::Memory,
    }
}

/// The roll of a list's items, the first of which stands on the line.
pub fn place_items(alloc: Global, items: &[Item], line: usize) -> Result<Roll, Refusal>
    requires { line + length items.now < 2 ^ 64 }
    ensures ok { IfOk result (λ roll. IsPermutation items.now roll) }
    ensures taken { OnOk result (IsTaken items.now) }
    ensures err { IfErr result (IsPlacingRefusal items.now line) }
{
    match Roll::from_items(alloc, items) {
        Ok(roll) => Ok(roll),
        Err(RollFault::Memory) => Err(Refusal::Memory),
        Err(RollFault::Infinity) => Err(refusal_of(alloc, items, line)),
        Err(RollFault::Present) => Err(refusal_of(alloc, items, line)),
        Err(RollFault::Full) => Err(refusal_of(alloc, items, line)),
    }
}
