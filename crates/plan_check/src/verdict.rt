//! Whether a plan file's gives are a sharing that its group shows to be least.

ghost use Rattle.std.specs.Prelude.{◌≡◌, ◌<◌, ◌+◌, ◌*◌, ◌^◌, ◌&&◌, ◌↔◌, IsTrue, not, ℕ, map, length, slice_index_or, sum_by, false, IfOk, IfErr, is_some, option_map, Ok, Some, None};
ghost use Rattle.std.specs.List.{All, list_any, list_all};
ghost use Rattle.sharing.specs.Sharing.{is_among, alone, Shows, IsGreatest, NoneSmaller};
ghost use Rattle.sharing.specs.Bases.{base_in};
ghost use Rattle.sharing.specs.Offers.{Ascend, AreRelays, beside, relays_of};
ghost use Rattle.sharing.specs.declared.TheConstants.{RELAYS, SLOTS};
ghost use Rattle.plan_check.specs.File.{AreBasesInOrder, pairs_of};
ghost use Rattle.plan_check.specs.Verdict.{given_load, gives_fault, IsSharedOut, GroupShows, Judges};

use crate::words::are_same;
use crate::{PlanFault, PlanFile};
use item_key::Id;
use sharing::SLOTS;

/// Whether this relay is among these.
fn is_one_of(relays: &[u16], relay: u16) -> bool
    ensures { result ≡ is_among relays.now relay }
{
    relays.iter().any(|r| relay == *r)
}

/// The relays that offer an id, which is looked for at this place first.
fn relays_at<'a>(offers: &'a [(Id, Vec<u16>)], place: usize, id: &Id) -> Option<&'a [u16]>
    requires { Ascend (map (λ o. o.0) (pairs_of offers.now)) }
    ensures { option_map (λ s. s.now) result ≡ beside (pairs_of offers.now) id.now }
{
    if place < offers.len() && id.cmp(&offers[place].0).is_eq() {
        return Some(&offers[place].1);
    }
    match offers.binary_search_by_key(id, |offer| offer.0) {
        Ok(found) => Some(&offers[found].1),
        Err(_) => None,
    }
}

/// Whether an id is among the gives, where it is looked for at this place first.
fn is_given(gives: &[(Id, u16)], place: usize, id: &Id) -> bool
    requires { Ascend (map (λ g. g.0) gives.now) }
    ensures { result ≡ is_some (beside gives.now id.now) }
{
    if place < gives.len() && id.cmp(&gives[place].0).is_eq() {
        return true;
    }
    gives.binary_search_by_key(id, |give| give.0).is_ok()
}

/// Whether an offered id is given to a relay that does not offer it. The offer is looked for at this place first.
fn is_unoffered(offers: &[(Id, Vec<u16>)], place: usize, give: &(Id, u16)) -> bool
    requires { Ascend (map (λ o. o.0) (pairs_of offers.now)) }
    ensures { result ≡ (is_some (beside (pairs_of offers.now) give.now.0) && not (is_among (relays_of (pairs_of offers.now) give.now.0) give.now.1)) }
{
    match relays_at(offers, place, &give.0) {
        Some(relays) => !is_one_of(relays, give.1),
        None => false,
    }
}

/// Whether some offered id is given to a relay that does not offer it.
fn has_unoffered(offers: &[(Id, Vec<u16>)], gives: &[(Id, u16)]) -> bool
    requires { Ascend (map (λ o. o.0) (pairs_of offers.now)) }
    ensures { result ≡ list_any (λ g. is_some (beside (pairs_of offers.now) g.0) && not (is_among (relays_of (pairs_of offers.now) g.0) g.1)) gives.now }
{
    for (place, give) in gives.iter().enumerate() {
        if is_unoffered(offers, place, give) {
            return true;
        }
    }
    false
}

/// Whether some offered id is not given.
fn has_missing(offers: &[(Id, Vec<u16>)], gives: &[(Id, u16)]) -> bool
    requires { Ascend (map (λ g. g.0) gives.now) }
    ensures { result ≡ list_any (λ o. not (is_some (beside gives.now o.0))) offers.now }
{
    for (place, offer) in offers.iter().enumerate() {
        if !is_given(gives, place, &offer.0) {
            return true;
        }
    }
    false
}

/// Whether some given id is not offered.
fn has_stranger(offers: &[(Id, Vec<u16>)], gives: &[(Id, u16)]) -> bool
    requires { Ascend (map (λ o. o.0) (pairs_of offers.now)) }
    ensures { result ≡ list_any (λ g. not (is_some (beside (pairs_of offers.now) g.0))) gives.now }
{
    for (place, give) in gives.iter().enumerate() {
        if relays_at(offers, place, &give.0).is_none() {
            return true;
        }
    }
    false
}

/// For each relay whether it is in the group.
fn table_of(group: &[u16]) -> [bool; SLOTS]
    requires { All (λ r. r < RELAYS) group.now }
    ensures table { (r : ℕ) → slice_index_or result r false ≡ is_among group.now r }
    ensures length { length result ≡ SLOTS }
{
    let mut table = [false; SLOTS];
    for relay in group {
        table[usize::from(*relay)] = true;
    }
    table
}

/// Whether all of these are in the group of the table.
fn are_within(relays: &[u16], table: &[bool; SLOTS]) -> bool
    requires { All (λ r. r < RELAYS) relays.now }
    ensures { result ≡ list_all (λ r. slice_index_or table.now r false) relays.now }
{
    for relay in relays {
        if !table[usize::from(*relay)] {
            return false;
        }
    }
    true
}

/// The number of ids that no relay outside the group offers.
fn count_alone(offers: &[(Id, Vec<u16>)], group: &[u16]) -> usize
    requires offers { All (λ o. AreRelays o.1) (pairs_of offers.now) }
    requires group { All (λ r. r < RELAYS) group.now }
    ensures value { result ≡ alone group.now (pairs_of offers.now) }
{
    let table = table_of(group);
    let mut count = 0;
    for offer in offers {
        if are_within(&offer.1, &table) {
            count += 1;
        }
    }
    count
}

/// For each relay what its load begins with.
fn bases_of(bases: &[(u16, u64)]) -> [u64; SLOTS]
    requires { AreBasesInOrder bases.now }
    ensures loads { (r : ℕ) → slice_index_or result r 0 ≡ base_in bases.now r }
    ensures length { length result ≡ SLOTS }
{
    let mut loads = [0; SLOTS];
    for base in bases {
        loads[usize::from(base.0)] = base.1;
    }
    loads
}

/// For each relay its load: what it begins with, and the ids that are given to it.
fn loads_of(bases: &[(u16, u64)], gives: &[(Id, u16)]) -> [u64; SLOTS]
    requires bases { AreBasesInOrder bases.now }
    requires relays { All (λ g. g.1 < RELAYS) gives.now }
    ensures loads { (r : ℕ) → slice_index_or result r 0 ≡ given_load bases.now gives.now r }
    ensures length { length result ≡ SLOTS }
{
    let mut loads = bases_of(bases);
    for give in gives {
        loads[usize::from(give.1)] += 1;
    }
    loads
}

/// The greatest of the relays' loads.
fn greatest_of(loads: &[u64; SLOTS]) -> u64
    ensures { IsGreatest (λ r. slice_index_or loads.now r 0) result }
{
    let mut most = 0;
    for load in loads {
        if *load > most {
            most = *load;
        }
    }
    most
}

/// The loads that these relays begin with together.
fn sum_of(group: &[u16], bases: &[u64; SLOTS]) -> u128
    requires { All (λ r. r < RELAYS) group.now }
    ensures sum { result ≡ sum_by (λ r. slice_index_or bases.now r 0) group.now }
    ensures small { result < length group.now * 2 ^ 64 + 1 }
{
    let mut sum = 0;
    for relay in group {
        sum += u128::from(bases[usize::from(*relay)]);
    }
    sum
}

/// Whether the group shows that no sharing has less than this.
fn does_show(bases: &[(u16, u64)], offers: &[(Id, Vec<u16>)], group: &[u16], most: u64) -> bool
    requires bases { AreBasesInOrder bases.now }
    requires offers { All (λ o. AreRelays o.1) (pairs_of offers.now) }
    requires group { AreRelays group.now }
    ensures { IsTrue result ↔ Shows (base_in bases.now) group.now (pairs_of offers.now) most }
{
    if most == 0 {
        return true;
    }
    let held = sum_of(group, &bases_of(bases)) + count_alone(offers, group) as u128;
    !group.is_empty() && held > u128::from(most - 1) * group.len() as u128
}

/// Whether two ids are the same.
fn is_same(id: &Id, other: &Id) -> bool
    ensures { IsTrue result ↔ id.now ≡ other.now }
{
    are_same(id.as_bytes(), other.as_bytes())
}

/// Whether there are as many gives as offers, and each is of the offer at its own place, to a relay that offers it. In a
/// sharing they are.
fn are_paired(file: &PlanFile) -> bool
    ensures { IsTrue result → gives_fault file.now ≡ None }
{
    let offers = file.offers();
    let gives = file.gives();
    if offers.len() != gives.len() {
        return false;
    }
    for (place, give) in gives.iter().enumerate() {
        let offer = &offers[place];
        if !is_same(&offer.0, &give.0) || !is_one_of(&offer.1, give.1) {
            return false;
        }
    }
    true
}

/// Whether the gives are a sharing of the offers. The lists are gone over once where they are, and each give is looked
/// for only where they are not.
fn check_gives(file: &PlanFile) -> Result<(), PlanFault>
    ensures ok { IfOk result (λ _. gives_fault file.now ≡ None) }
    ensures err { IfErr result (λ fault. gives_fault file.now ≡ Some fault) }
{
    if are_paired(file) {
        return Ok(());
    }
    let offers = file.offers();
    let gives = file.gives();
    if has_unoffered(offers, gives) {
        return Err(PlanFault::NotOffered);
    }
    if has_missing(offers, gives) {
        return Err(PlanFault::Missing);
    }
    if has_stranger(offers, gives) {
        return Err(PlanFault::Stranger);
    }
    Ok(())
}

/// The busiest load, where the gives are a sharing of the offers and the group shows that no sharing has less. All
/// relays' loads count, also where a relay begins with one and is given no id.
pub fn check(file: &PlanFile) -> Result<u64, PlanFault>
    ensures judges { Judges file.now result }
    ensures exact { (most : ℕ) → (result ≡ Ok most) ↔ (IsSharedOut file.now most × GroupShows file.now most) }
    ensures least { IfOk result (NoneSmaller (base_in file.now.bases) file.now.offers) }
{
    let offers = file.offers();
    let gives = file.gives();
    check_gives(file)?;
    let bases = file.bases();
    let most = greatest_of(&loads_of(bases, gives));
    if does_show(bases, offers, file.group(), most) {
        Ok(most)
    } else {
        Err(PlanFault::GroupTooSmall)
    }
}
