//! The offers of two lists, walked side by side.

ghost use Rattle.std.specs.Prelude.{◌≡◌, ◌≤◌, ◌+◌, ◌∷◌, ℕ, [], length, map, nat_lt, OnOk, IfOk, MatchOption};
ghost use Rattle.item_key.specs.declared.Id.{Id};
ghost use Rattle.sharing.specs.declared.TheConstants.{MOST_IDS};
ghost use Rattle.sharing.specs.Sharing.{is_among};
ghost use Rattle.sharing.specs.Offers.{AreRelays, Ascend, IsOffers, relays_of};
ghost use Rattle.offer_table.specs.Table.{new_in};
ghost use Rattle.offer_table.specs.Combined.{keeps, most_kept, IsNextId, IsPushed};

use crate::RelaySet;
use crate::guess::Pairs;
use item_key::Id;
use sharing::MOST_IDS;
use std::alloc::{AllocError, Global};
use std::cmp::Ordering;

/// Which offers of two lists are kept.
#[derive(Clone, Copy)]
pub(crate) enum Keep {
    /// Those of either list.
    Either,
    /// Those of the first list that the second lacks.
    FirstAlone,
}

impl Keep {
    /// The relays that are kept beside an id.
    fn of(self, mine: RelaySet, theirs: RelaySet) -> RelaySet
        ensures member { (r : ℕ) → is_among result r ≡ keeps self (is_among mine r) (is_among theirs r) }
        ensures relays { AreRelays result }
    {
        match self {
            Keep::Either => mine.union(theirs),
            Keep::FirstAlone => mine.minus(theirs),
        }
    }
}

/// An id, with the relays beside it in two lists, and what comes behind it in each.
#[derive(Drop)]
struct Next<'a> {
    id: Id,
    mine: RelaySet,
    theirs: RelaySet,
    more: &'a [(Id, RelaySet)],
    rest: &'a [(Id, RelaySet)],
}

/// The least id of both lists.
#[inline(always)]
fn least<'a>(mine: &'a [(Id, RelaySet)], theirs: &'a [(Id, RelaySet)]) -> Option<Next<'a>>
    requires mine { Ascend (map (λ o. o.0) mine.now) }
    requires theirs { Ascend (map (λ o. o.0) theirs.now) }
    ensures { MatchOption result ((mine.now ≡ []) × (theirs.now ≡ [])) (λ l. IsNextId mine.now theirs.now l.id l.mine l.theirs l.more.now l.rest.now) }
{
    match mine.split_first() {
        None => {
            let (second, rest) = theirs.split_first()?;
            Some(Next {
                id: second.0,
                mine: RelaySet::empty(),
                theirs: second.1,
                more: mine,
                rest,
            })
        }
        Some((first, more)) => Some(least_from(first, more, mine, theirs)),
    }
}

/// The least id of both lists, where the first begins with this offer.
#[inline(always)]
fn least_from<'a>(
    first: &(Id, RelaySet),
    more: &'a [(Id, RelaySet)],
    mine: &'a [(Id, RelaySet)],
    theirs: &'a [(Id, RelaySet)],
) -> Next<'a>
    requires first { mine.now ≡ first.now ∷ more.now }
    requires mine { Ascend (map (λ o. o.0) mine.now) }
    requires theirs { Ascend (map (λ o. o.0) theirs.now) }
    ensures { IsNextId mine.now theirs.now result.id result.mine result.theirs result.more.now result.rest.now }
{
    let alone = Next {
        id: first.0,
        mine: first.1,
        theirs: RelaySet::empty(),
        more,
        rest: theirs,
    };
    let Some((second, rest)) = theirs.split_first() else {
        return alone;
    };
    match first.0.cmp(&second.0) {
        Ordering::Less => alone,
        Ordering::Equal => Next {
            id: first.0,
            mine: first.1,
            theirs: second.1,
            more,
            rest,
        },
        Ordering::Greater => Next {
            id: second.0,
            mine: RelaySet::empty(),
            theirs: second.1,
            more: mine,
            rest,
        },
    }
}

/// How many ids these offer together.
pub(crate) fn count_both(mine: &[(Id, RelaySet)], theirs: &[(Id, RelaySet)]) -> usize
    requires mine { Ascend (map (λ o. o.0) mine.now) × (length mine.now ≤ MOST_IDS) }
    requires theirs { Ascend (map (λ o. o.0) theirs.now) × (length theirs.now ≤ MOST_IDS) }
    ensures { result ≡ length mine.now + new_in mine.now theirs.now }
{
    let (mut first, mut second) = (mine, theirs);
    let mut count = 0;
    while let Some(next) = least(first, second) {
        count += 1;
        first = next.more;
        second = next.rest;
    }
    count
}

/// Room for the ids that these offer together: at least as many, and above [`MOST_IDS`] just where they are.
pub(crate) fn room_for(mine: &[(Id, RelaySet)], theirs: &[(Id, RelaySet)]) -> usize
    requires mine { Ascend (map (λ o. o.0) mine.now) × (length mine.now ≤ MOST_IDS) }
    requires theirs { Ascend (map (λ o. o.0) theirs.now) × (length theirs.now ≤ MOST_IDS) }
    ensures enough { length mine.now + new_in mine.now theirs.now ≤ result }
    ensures full { nat_lt MOST_IDS result ≡ nat_lt MOST_IDS (length mine.now + new_in mine.now theirs.now) }
{
    let most = mine.len() + theirs.len();
    if most <= MOST_IDS {
        return most;
    }
    count_both(mine, theirs)
}

/// Adds an id with its relays, where there are some.
fn push_some(all: &mut Vec<(Id, RelaySet)>, id: Id, relays: RelaySet) -> Result<(), AllocError>
    ensures { OnOk result (IsPushed all.old.items id relays all.new.items) }
{
    if relays.is_empty() {
        return Ok(());
    }
    all.push((id, relays))?;
    Ok(())
}

/// The offers of two lists that are kept, which are that many ids at most. It notes the pairs of their groups.
pub(crate) fn combined(
    alloc: Global,
    keep: Keep,
    mine: &[(Id, RelaySet)],
    theirs: &[(Id, RelaySet)],
    most: usize,
    pairs: &mut Pairs<'_, '_>,
) -> Result<Vec<(Id, RelaySet)>, AllocError>
    requires mine { Ascend (map (λ o. o.0) mine.now) }
    requires theirs { Ascend (map (λ o. o.0) theirs.now) }
    ensures member { IfOk result (λ all. (i : Id) (r : ℕ) → is_among (relays_of all.items i) r ≡ keeps keep (is_among (relays_of mine.now i) r) (is_among (relays_of theirs.now i) r)) }
    ensures few { IfOk result (λ all. length all.items ≤ most_kept keep mine.now theirs.now) }
    ensures offers { IfOk result (λ all. IsOffers all.items) }
{
    let mut all = Vec::with_capacity(alloc, most)?;
    let (mut first, mut second) = (mine, theirs);
    while let Some(next) = least(first, second) {
        let relays = keep.of(next.mine, next.theirs);
        push_some(&mut all, next.id, relays)?;
        let mine = next.more.len() < first.len();
        let theirs = next.rest.len() < second.len();
        pairs.pass(mine, theirs, all.len())?;
        first = next.more;
        second = next.rest;
    }
    Ok(all)
}
