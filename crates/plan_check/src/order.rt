//! Whether the lines of a plan file are of the form and in order.

ghost use Rattle.std.specs.Prelude.{◌≡◌, ◌+◌, ◌<◌, ◌^◌, ◌||◌, not, true, length, nat_lt, Some, None, IfSome, option_map, if◌then◌else◌};
ghost use Rattle.std.specs.Ordering.{nat_cmp};
ghost use Rattle.sharing.specs.declared.TheConstants.{RELAYS};
ghost use Rattle.plan_check.specs.Lines.{first_at, first_out, first_place, rises, is_base, are_relays, is_empty, is_behind, or_else};
ghost use Rattle.sharing.specs.Offers.{id_cmp};

use item_key::Id;
use sharing::{MOST_BASE, RELAYS};

/// Whether an id comes behind the one before it.
pub(crate) fn comes_behind(before: Option<Id>, id: Id) -> bool
    ensures { result ≡ is_behind id_cmp before id }
{
    match before {
        Some(other) => other.cmp(&id).is_lt(),
        None => true,
    }
}

/// Whether a relay comes behind the one before it.
pub(crate) fn comes_next(before: Option<u16>, relay: u16) -> bool
    ensures { result ≡ is_behind nat_cmp before relay }
{
    match before {
        Some(other) => other < relay,
        None => true,
    }
}

/// Whether all of these are numbers of relays.
pub(crate) fn are_all_relays(relays: &[u16]) -> bool
    ensures { result ≡ are_relays relays.now }
{
    relays.iter().all(|relay| *relay < RELAYS)
}

/// Whether each of these is above the one before. All are looked at before an answer, so that this becomes vector code.
pub(crate) fn do_rise(relays: &[u16]) -> bool
    ensures { result ≡ rises relays.now }
{
    let mut rise = true;
    for place in 1..relays.len() {
        rise &= relays[place - 1] < relays[place];
    }
    rise
}

/// Whether this is a relay and a load that it may begin with.
fn is_base(base: &(u16, u64)) -> bool
    ensures { result ≡ is_base base.now }
{
    base.0 < RELAYS && 0 < base.1 && base.1 < MOST_BASE + 1
}

/// The place of the first base that is none.
pub(crate) fn malformed_base(bases: &[(u16, u64)]) -> Option<usize>
    ensures { result ≡ first_at (λ b. not (is_base b)) 0 bases.now }
{
    for (place, base) in bases.iter().enumerate() {
        if !is_base(base) {
            return Some(place);
        }
    }
    None
}

/// The place of the first offer that has no relay, or a number that is no relay.
pub(crate) fn malformed_offer(offers: &[(Id, Vec<u16>)]) -> Option<usize>
    ensures place { result ≡ first_at (λ o. is_empty o.1.items || not (are_relays o.1.items)) 0 offers.now }
    ensures within { IfSome result (λ k. k < length offers.now) }
{
    for (place, offer) in offers.iter().enumerate() {
        if offer.1.is_empty() || !are_all_relays(&offer.1) {
            return Some(place);
        }
    }
    None
}

/// The place of the first give to a number that is no relay.
pub(crate) fn malformed_give(gives: &[(Id, u16)]) -> Option<usize>
    ensures place { result ≡ first_at (λ g. not (nat_lt g.1 RELAYS)) 0 gives.now }
    ensures within { IfSome result (λ k. k < length gives.now) }
{
    for (place, give) in gives.iter().enumerate() {
        if give.1 >= RELAYS {
            return Some(place);
        }
    }
    None
}

/// The place of the first base whose relay is not above the one before.
pub(crate) fn misplaced_base(bases: &[(u16, u64)]) -> Option<usize>
    ensures { result ≡ first_out nat_cmp (λ b. b.0) (λ _. true) None 0 bases.now }
{
    let mut before = None;
    for (place, base) in bases.iter().enumerate() {
        if !comes_next(before, base.0) {
            return Some(place);
        }
        before = Some(base.0);
    }
    None
}

/// The place of the first offer whose id is not above the one before, or whose relays do not rise.
pub(crate) fn misplaced_offer(offers: &[(Id, Vec<u16>)]) -> Option<usize>
    ensures place { result ≡ first_out id_cmp (λ o. o.0) (λ o. rises o.1.items) None 0 offers.now }
    ensures within { IfSome result (λ k. k < length offers.now) }
{
    let mut before = None;
    for (place, offer) in offers.iter().enumerate() {
        if !comes_behind(before, offer.0) || !do_rise(&offer.1) {
            return Some(place);
        }
        before = Some(offer.0);
    }
    None
}

/// The place of the first give whose id is not above the one before.
pub(crate) fn misplaced_give(gives: &[(Id, u16)]) -> Option<usize>
    ensures place { result ≡ first_out id_cmp (λ g. g.0) (λ _. true) None 0 gives.now }
    ensures within { IfSome result (λ k. k < length gives.now) }
{
    let mut before = None;
    for (place, give) in gives.iter().enumerate() {
        if !comes_behind(before, give.0) {
            return Some(place);
        }
        before = Some(give.0);
    }
    None
}

/// How many bases, offers and gives a file has.
#[derive(Clone, Copy)]
pub(crate) struct Counts {
    pub(crate) bases: usize,
    pub(crate) offers: usize,
    pub(crate) gives: usize,
}

/// Places that were found in the bases, the offers and the gives, and whether the group is fine.
#[derive(Clone, Copy)]
pub(crate) struct Places {
    pub(crate) base: Option<usize>,
    pub(crate) offer: Option<usize>,
    pub(crate) give: Option<usize>,
    pub(crate) group: bool,
}

/// The first of these places in the whole.
pub(crate) fn first_place(counts: Counts, places: Places) -> Option<usize>
    requires few { counts.bases + counts.offers + counts.gives < 2 ^ 64 }
    requires offer { IfSome places.offer (λ k. k < counts.offers) }
    requires give { IfSome places.give (λ k. k < counts.gives) }
    ensures { result ≡ first_place counts.bases counts.offers counts.gives places.base places.offer places.give places.group }
{
    if let Some(place) = places.base {
        return Some(place);
    }
    if let Some(place) = places.offer {
        return Some(counts.bases + place);
    }
    let front = counts.bases + counts.offers;
    if let Some(place) = places.give {
        return Some(front + place);
    }
    if places.group {
        None
    } else {
        Some(front + counts.gives)
    }
}

/// The place that was found first; else this one, where the record there is not in order.
pub(crate) fn note(first: Option<usize>, is_fine: bool, place: usize) -> Option<usize>
    ensures { result ≡ or_else first (if is_fine then None else Some place) }
{
    if first.is_none() && !is_fine {
        Some(place)
    } else {
        first
    }
}
