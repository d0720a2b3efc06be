//! What a line tells: a base, an offer, a give or a group.

ghost use Rattle.std.specs.Prelude.{◌≡◌, ◌≢◌, ◌<◌, ◌++◌, ℕ, List, All, IfSome, IfNone, IfOk, length, codes};
ghost use Rattle.hex.specs.Hex.{encode_lower};
ghost use Rattle.item_key.specs.declared.Id.{Id as AnId};
ghost use Rattle.item_key.specs.Keys.{IsId};
ghost use Rattle.sharing.specs.Offers.{AreRelays};
ghost use Rattle.plan_check.specs.File.{IsBase};
ghost use Rattle.plan_check.specs.PlanText.{base_line, offer_line, give_line, group_line, IsOffer, IsGive};

use crate::words::{cut_id, cut_load, cut_relay, parse_relays, skip_word};
use item_key::Id;
use std::alloc::{AllocError, Global};

/// The relay of the base of a line without its line feed, and what its load begins with.
pub(crate) fn parse_base(line: &[u8]) -> Option<(u16, u64)>
    ensures found { IfSome result (λ b. line.now ≡ base_line b) }
    ensures base { IfSome result IsBase }
    ensures none { IfNone result ((b : ℕ × ℕ) → IsBase b → line.now ≢ base_line b) }
{
    let rest = skip_word(line, b"base")?;
    let (relay, rest) = cut_relay(rest)?;
    let (load, rest) = cut_load(rest)?;
    if rest.is_empty() {
        Some((relay, load))
    } else {
        None
    }
}

/// The id of the offer of a line without its line feed, and the text of the relays behind it.
pub fn cut_offer(line: &[u8]) -> Option<(Id, &[u8])>
    ensures found { IfSome result (λ cut. line.now ≡ codes "offer " ++ encode_lower cut.0.0 ++ cut.1.now) }
    ensures id { IfSome result (λ cut. IsId cut.0) }
    ensures some { IfSome result (λ cut. 0 < length cut.1.now) }
    ensures none { IfNone result ((o : AnId × List ℕ) → IsOffer o → line.now ≢ offer_line o) }
{
    let rest = skip_word(line, b"offer ")?;
    let (id, rest) = cut_id(rest)?;
    if rest.is_empty() {
        None
    } else {
        Some((id, rest))
    }
}

/// The offer of a line without its line feed, where its relays rise.
pub(crate) fn parse_offer(alloc: Global, line: &[u8]) -> Result<Option<(Id, Vec<u16>)>, AllocError>
    ensures found { IfOk result (λ r. IfSome r (λ o. line.now ≡ offer_line (o.0, o.1.items))) }
    ensures offer { IfOk result (λ r. IfSome r (λ o. IsOffer (o.0, o.1.items))) }
    ensures relays { IfOk result (λ r. IfSome r (λ o. AreRelays o.1.items)) }
{
    let Some((id, rest)) = cut_offer(line) else {
        return Ok(None);
    };
    match parse_relays(alloc, rest)? {
        Some(relays) => Ok(Some((id, relays))),
        None => Ok(None),
    }
}

/// The give of a line without its line feed.
pub(crate) fn parse_give(line: &[u8]) -> Option<(Id, u16)>
    ensures found { IfSome result (λ g. line.now ≡ give_line g) }
    ensures give { IfSome result IsGive }
    ensures none { IfNone result ((g : AnId × ℕ) → IsGive g → line.now ≢ give_line g) }
{
    let rest = skip_word(line, b"give ")?;
    let (id, rest) = cut_id(rest)?;
    let (relay, rest) = cut_relay(rest)?;
    if rest.is_empty() {
        Some((id, relay))
    } else {
        None
    }
}

/// The group of a line without its line feed, where its relays rise.
pub(crate) fn parse_group(alloc: Global, line: &[u8]) -> Result<Option<Vec<u16>>, AllocError>
    ensures found { IfOk result (λ r. IfSome r (λ group. line.now ≡ group_line group.items)) }
    ensures group { IfOk result (λ r. IfSome r (λ group. AreRelays group.items)) }
{
    match skip_word(line, b"group") {
        Some(rest) => parse_relays(alloc, rest),
        None => Ok(None),
    }
}
