//! Offers, each taken to one of the relays that offer it.

ghost use Rattle.std.specs.Prelude.{◌≡◌, ◌<◌, ◌≤◌, ◌+◌, ◌^◌, true, ℕ, length, map, IfOk};
ghost use Rattle.std.specs.List.{All};
ghost use Rattle.sharing.specs.declared.TheConstants.{MOST_IDS};
ghost use Rattle.sharing.specs.Sharing.{is_among};
ghost use Rattle.fetch_plan.specs.Takers.{at, held, AreOffered};

use item_key::Id;
use offer_table::RelaySet;
use sharing::{RELAYS, SLOTS};
use std::alloc::{AllocError, Global};

/// The relay that is suggested, where it is a member, or else the first member.
fn chosen(relays: RelaySet, suggested: u16) -> u16
    requires { 0 < length relays }
    ensures member { is_among relays result ≡ true }
    ensures small { result < RELAYS }
{
    if relays.has(suggested) {
        return suggested;
    }
    match relays.split_first() {
        Some((first, _)) => first,
        None => unreachable!(),
    }
}

/// Takes each id to the relay that is suggested for it, or, where that one doesn't offer it, to one that does.
pub(crate) fn choose(
    alloc: Global,
    offers: &[(Id, RelaySet)],
    suggested: &[u16],
) -> Result<Vec<u16>, AllocError>
    requires { All (λ o. 0 < length o.1) offers.now }
    ensures { IfOk result (λ takers. AreOffered offers.now takers.items) }
{
    let mut takers = Vec::with_capacity(alloc, offers.len())?;
    for (place, offer) in offers.iter().enumerate() {
        let suggested = suggested.get(place).copied().unwrap_or(0);
        takers.push(chosen(offer.1, suggested))?;
    }
    Ok(takers)
}

/// Adds the numbers of ids that are taken to the relays to what their loads begin with.
pub(crate) fn add_loads(takers: &[u16], loads: &mut [u64; SLOTS])
    requires small { (k : ℕ) → k < length takers.now → at takers.now k < RELAYS }
    requires few { length takers.now ≤ MOST_IDS }
    requires room { (r : ℕ) → at loads.old r + MOST_IDS < 2 ^ 64 }
    ensures { (r : ℕ) → at loads.new r ≡ at loads.old r + held takers.now r }
{
    for taker in takers {
        loads[usize::from(*taker)] += 1;
    }
}

/// The ids, with the relays that they are taken to.
pub(crate) fn give(
    alloc: Global,
    offers: &[(Id, RelaySet)],
    takers: &[u16],
) -> Result<Vec<(Id, u16)>, AllocError>
    requires { length takers.now ≡ length offers.now }
    ensures ids { IfOk result (λ gives. map (λ g. g.0) gives.items ≡ map (λ o. o.0) offers.now) }
    ensures takers { IfOk result (λ gives. map (λ g. g.1) gives.items ≡ takers.now) }
{
    let mut gives = Vec::with_capacity(alloc, offers.len())?;
    for (place, taker) in takers.iter().enumerate() {
        gives.push((offers[place].0, *taker))?;
    }
    Ok(gives)
}
