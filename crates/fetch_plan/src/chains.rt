//! Chains of single moves: from a busiest relay, each time to one that offers an id which the one before it is
//! given, to a relay with at least two fewer. Where no chain leads to such a relay, no sharing has a smaller busiest
//! load, and the relays that chains reach show it. This holds however the sharing was found.

ghost use Rattle.std.specs.Prelude.{◌≡◌, ◌≤◌, ◌<◌, ◌+◌, ◌==◌, false, ℕ, length, cond, IfOk, OnOk, IfSome, IfNone};
ghost use Rattle.sharing.specs.Sharing.{is_among};
ghost use Rattle.fetch_plan.specs.Takers.{at, offered, AreOffered, KeepPace};
ghost use Rattle.fetch_plan.specs.Chains.{set_at, IsBeyond, IsSettled, squares};

use crate::search::Search;
use item_key::Id;
use offer_table::RelaySet;
use sharing::{RELAYS, SLOTS};
use std::alloc::{AllocError, Global};

/// A set for each relay, all of them empty.
fn no_sets(alloc: Global) -> Result<Vec<RelaySet>, AllocError>
    ensures none { IfOk result (λ sets. (r s : ℕ) → is_among (set_at sets.items r) s ≡ false) }
    ensures long { IfOk result (λ sets. length sets.items ≡ SLOTS) }
{
    let mut sets = Vec::with_capacity(alloc, SLOTS)?;
    'sets: while sets.len() < SLOTS {
        sets.push(RelaySet::empty())?;
    }
    Ok(sets)
}

/// For each relay the relays that offer an id which it is given.
fn beyond_of(
    alloc: Global,
    offers: &[(Id, RelaySet)],
    takers: &[u16],
) -> Result<Vec<RelaySet>, AllocError>
    requires { AreOffered offers.now takers.now }
    ensures beyond { IfOk result (λ beyond. IsBeyond offers.now takers.now (length takers.now) beyond.items) }
    ensures long { IfOk result (λ beyond. length beyond.items ≡ SLOTS) }
{
    let mut beyond = no_sets(alloc)?;
    for (place, taker) in takers.iter().enumerate() {
        let slot = usize::from(*taker);
        beyond[slot] = beyond[slot].union(offers[place].1);
    }
    Ok(beyond)
}

/// The greatest load.
pub(crate) fn greatest(loads: &[u64; SLOTS]) -> u64
    ensures bound { (r : ℕ) → r < RELAYS → at loads.now r ≤ result }
    ensures one { (r : ℕ) × (r < RELAYS) × (at loads.now r ≡ result) }
{
    let mut most = loads[0];
    for load in loads {
        if *load > most {
            most = *load;
        }
    }
    most
}

/// One fewer for a relay, and one more for another that has at least two fewer.
fn shift(loads: &mut [u64; SLOTS], from: u16, to: u16)
    requires from { from < RELAYS }
    requires to { to < RELAYS }
    requires gap { at loads.old to + 2 ≤ at loads.old from }
    ensures moved { (r : ℕ) → at loads.new r + cond (from == r) 1 0 ≡ at loads.old r + cond (to == r) 1 0 }
    ensures smaller { squares loads.new < squares loads.old }
{
    loads[usize::from(from)] -= 1;
    loads[usize::from(to)] += 1;
}

/// Moves single ids along one chain from a busiest relay to one with at least two fewer. Where there is none, it
/// answers the relays that chains reach.
fn settle_once(
    alloc: Global,
    offers: &[(Id, RelaySet)],
    takers: &mut [u16],
    loads: &mut [u64; SLOTS],
) -> Result<Option<RelaySet>, AllocError>
    requires { AreOffered offers.now takers.old }
    ensures offered { OnOk result (AreOffered offers.now takers.new) }
    ensures loads { OnOk result (KeepPace takers.old loads.old takers.new loads.new) }
    ensures smaller { IfOk result (λ found. IfNone found (squares loads.new < squares loads.old)) }
    ensures settled { IfOk result (λ found. IfSome found (λ group. (most : ℕ) × IsSettled offers.now takers.new loads.new most group)) }
{
    let beyond = beyond_of(alloc, offers, takers)?;
    let most = greatest(loads);
    let mut search = Search::new(loads, most);
    match search.run(&beyond, loads, most) {
        None => Ok(Some(search.reached)),
        Some(end) => {
            let from = search.walk(offers, takers, end);
            shift(loads, from, end);
            Ok(None)
        }
    }
}

/// Moves single ids along chains until none leads from a busiest relay to one with at least two fewer. It
/// answers which relays chains reach then.
pub(crate) fn settle(
    alloc: Global,
    offers: &[(Id, RelaySet)],
    takers: &mut [u16],
    loads: &mut [u64; SLOTS],
) -> Result<RelaySet, AllocError>
    requires { AreOffered offers.now takers.old }
    ensures offered { OnOk result (AreOffered offers.now takers.new) }
    ensures loads { OnOk result (KeepPace takers.old loads.old takers.new loads.new) }
    ensures settled { IfOk result (λ group. (most : ℕ) × IsSettled offers.now takers.new loads.new most group) }
{
    'chains: loop {
        if let Some(group) = settle_once(alloc, offers, takers, loads)? {
            return Ok(group);
        }
    }
}
