//! The rolls of both sides.

ghost use Rattle.std.specs.Prelude.{◌≡◌, ◌≤◌, List, length, IfOk, IfErr, IsPermutation};
ghost use Rattle.item_key.specs.declared.Item.{Item as AnItem};
ghost use Rattle.item_roll.specs.Parts.{IsRoll};
ghost use Rattle.mirror_run.specs.ItemLists.{IsInput};
ghost use Rattle.mirror_run.specs.Refused.{IsLinesRefusal};

use crate::lists::{Lists, read_lists};
use crate::placing::place_items;
use crate::refusal::Refusal;
use item_roll::Roll;
use std::alloc::Global;

/// Both rolls. What is true of each roll is true of them.
fn both(mine: Roll, theirs: Roll) -> (Roll, Roll)
    ensures same { (result.0 ≡ mine) × (result.1 ≡ theirs) }
    ensures sorted { IsRoll result.0 × IsRoll result.1 }
{
    let _ = (mine.len(), theirs.len());
    (mine, theirs)
}

/// Places the items in their order, and tells the first that isn't taken.
fn place_in_order(alloc: Global, text: &[u8]) -> Result<(Roll, Roll), Refusal>
    requires { length text.now ≤ 67108864 }
    ensures ok { IfOk result (λ rolls. (mine : List AnItem) × (theirs : List AnItem)
        × IsInput text.now mine theirs × IsPermutation mine rolls.0 × IsPermutation theirs rolls.1) }
    ensures sorted { IfOk result (λ rolls. IsRoll rolls.0 × IsRoll rolls.1) }
    ensures err { IfErr result (IsLinesRefusal text.now) }
{
    let lists = read_lists(alloc, text)?;
    let mine = place_items(alloc, &lists.mine, 2)?;
    let theirs = place_items(alloc, &lists.theirs, lists.mine.len() + 3)?;
    Ok(both(mine, theirs))
}

/// The rolls of `mine` and `theirs` that a text tells, in bytes. Where they are refused, the lists are read once more, since
/// their items have been put in another order by then.
pub fn read_rolls(alloc: Global, text: &[u8]) -> Result<(Roll, Roll), Refusal>
    requires { length text.now ≤ 67108864 }
    ensures ok { IfOk result (λ rolls. (mine : List AnItem) × (theirs : List AnItem)
        × IsInput text.now mine theirs × IsPermutation mine rolls.0 × IsPermutation theirs rolls.1) }
    ensures sorted { IfOk result (λ rolls. IsRoll rolls.0 × IsRoll rolls.1) }
    ensures err { IfErr result (IsLinesRefusal text.now) }
{
    let Lists { mine, theirs } = read_lists(alloc, text)?;
    let Ok(mine) = Roll::from_vec(alloc, mine) else {
        return place_in_order(alloc, text);
    };
    let Ok(theirs) = Roll::from_vec(alloc, theirs) else {
        return place_in_order(alloc, text);
    };
    Ok(both(mine, theirs))
}
