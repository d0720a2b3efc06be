//! The bases and the offers of a plan text, read as sets, without a list for each offer.

ghost use Rattle.std.specs.Prelude.{◌≡◌, ◌++◌, ◌∷◌, [], ℕ, map, All, IsTrue, IfOk, IfSome};
ghost use Rattle.sharing.specs.Bases.{base_of, base_in, AreBases};
ghost use Rattle.sharing.specs.Offers.{AreRelays, IsOffers, Ascend};
ghost use Rattle.plan_check.specs.File.{AreBasesInOrder, IsBase};
ghost use Rattle.plan_check.specs.TextLines.{lines_of, ended};
ghost use Rattle.plan_check.specs.PlanText.{relays_text, offer_line, IsOffer};
ghost use Rattle.plan_run.specs.Planned.{IsFront};

use item_key::Id;
use offer_table::{Bases, RelaySet};
use plan_check::{cut_line, cut_offer, cut_relay, is_tail, read_head};
use std::alloc::{AllocError, Global};

/// The bases and the offers of a plan text, and where their lines end.
#[derive(Drop)]
pub(crate) struct Front {
    pub(crate) bases: Bases,
    pub(crate) offers: Vec<(Id, RelaySet)>,
    pub(crate) end: usize,
}

/// The bases of these pairs, where their relays rise.
fn bases_of(pairs: &[(u16, u64)]) -> Option<Bases>
    requires { All IsBase pairs.now }
    ensures bases { IfSome result (λ bases. (r : ℕ) → base_of bases r ≡ base_in pairs.now r) }
    ensures ordered { IfSome result (λ _. AreBasesInOrder pairs.now) }
{
    let mut bases = Bases::none();
    let mut next = 0;
    for base in pairs {
        if base.0 < next {
            return None;
        }
        let Ok(()) = bases.set(base.0, base.1) else {
            return None;
        };
        next = base.0 + 1;
    }
    Some(bases)
}

/// The relays of a text, each behind a space, where they rise.
fn parse_set(text: &[u8]) -> Option<RelaySet>
    ensures found { IfSome result (λ relays. text.now ≡ relays_text relays) }
    ensures relays { IfSome result AreRelays }
{
    let mut relays = RelaySet::empty();
    let mut next = 0;
    let mut rest = text;
    while let Some((relay, after)) = cut_relay(rest) {
        if relay < next {
            return None;
        }
        relays = relays.with(relay);
        next = relay + 1;
        rest = after;
    }
    if rest.is_empty() { Some(relays) } else { None }
}

/// The offer of a line without its line feed, where its relays rise.
fn parse_offer(line: &[u8]) -> Option<(Id, RelaySet)>
    ensures found { IfSome result (λ o. line.now ≡ offer_line o) }
    ensures offer { IfSome result IsOffer }
    ensures relays { IfSome result (λ o. AreRelays o.1) }
{
    let (id, rest) = cut_offer(line)?;
    let relays = parse_set(rest)?;
    Some((id, relays))
}

/// Whether an id comes behind the ids of these offers.
fn comes_behind(offers: &[(Id, RelaySet)], id: &Id) -> bool
    requires { Ascend (map (λ o. o.0) offers.now) }
    ensures { IsTrue result → Ascend (map (λ o. o.0) offers.now ++ id.now ∷ []) }
{
    match offers.split_last() {
        Some((last, _)) => last.0.cmp(id).is_lt(),
        None => true,
    }
}

/// The offers at the front, as long as their lines are in order, and the text after these.
fn take_offers(alloc: Global, text: &[u8]) -> Result<(Vec<(Id, RelaySet)>, &[u8]), AllocError>
    ensures lines { IfOk result (λ r. lines_of text.now ≡ map (λ o. ended (offer_line o)) r.0.items ++ lines_of r.1.now) }
    ensures form { IfOk result (λ r. All IsOffer r.0.items) }
    ensures offers { IfOk result (λ r. IsOffers r.0.items) }
{
    let mut offers = Vec::new(alloc);
    let mut rest = text;
    while let Some((line, after)) = cut_line(rest) {
        let Some(offer) = parse_offer(line) else {
            return Ok((offers, rest));
        };
        if !comes_behind(&offers, &offer.0) {
            return Ok((offers, rest));
        }
        offers.push(offer)?;
        rest = after;
    }
    Ok((offers, rest))
}

/// The bases and the offers of a plan text. None where the bytes are no plan text.
pub(crate) fn read_front(alloc: Global, text: &[u8]) -> Result<Option<Front>, AllocError>
    ensures front { IfOk result (λ o. IfSome o (λ f. IsFront text.now (base_of f.bases) f.offers.items f.end)) }
    ensures bases { IfOk result (λ o. IfSome o (λ f. AreBases f.bases)) }
    ensures offers { IfOk result (λ o. IfSome o (λ f. IsOffers f.offers.items)) }
{
    let Some((pairs, rest)) = read_head(alloc, text)? else {
        return Ok(None);
    };
    let Some(bases) = bases_of(&pairs) else {
        return Ok(None);
    };
    let (offers, rest) = take_offers(alloc, rest)?;
    let end = text.len() - rest.len();
    if is_tail(rest) {
        Ok(Some(Front { bases, offers, end }))
    } else {
        Ok(None)
    }
}
