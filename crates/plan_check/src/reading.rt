//! Plan files that are read from their texts.

ghost use Rattle.std.specs.Prelude.{◌≡◌, ◌≢◌, ◌<◌, ◌++◌, ◌∷◌, [], ◌⊎◌, ℕ, List, map, All, IfOk, IfErr, IfSome, IfNone, Ok, Err, IsUtf8};
ghost use Rattle.sharing.specs.Offers.{AreRelays, IsOffers, Ascend};
ghost use Rattle.plan_check.specs.declared.faults.PlanFault.{PlanFault as AFault};
ghost use Rattle.plan_check.specs.declared.faults.PlanFault.TheVariants.{Memory as memory};
ghost use Rattle.plan_check.specs.File.{File, IsBase, IsFile, pairs_of};
ghost use Rattle.plan_check.specs.TextLines.{lines_of, ended, FirstIsNot};
ghost use Rattle.plan_check.specs.PlanText.{header_line, base_line, offer_line, give_line, group_line, plan_lines, IsOffer, IsGive, IsOfForm, IsTextOf};
ghost use Rattle.plan_check.specs.PlanParts.{IsBaseLine};
ghost use Rattle.plan_check.specs.PlanReading.{IsTextFault, IsReadFault};

use crate::order::{comes_behind, misplaced_base};
use crate::records::{parse_base, parse_give, parse_group, parse_offer};
use crate::scanning::{scan, skip_line};
use crate::text_lines::cut_line;
use crate::{PlanFault, PlanFile};
use item_key::Id;
use std::alloc::{AllocError, Global};

/// The lists of a plan file.
#[derive(Drop)]
struct Lists {
    bases: Vec<(u16, u64)>,
    offers: Vec<(Id, Vec<u16>)>,
    gives: Vec<(Id, u16)>,
    group: Vec<u16>,
}

/// The bases at the front, and the text after these.
fn take_bases(alloc: Global, text: &[u8]) -> Result<(Vec<(u16, u64)>, &[u8]), AllocError>
    ensures lines { IfOk result (λ r. lines_of text.now ≡ map (λ b. ended (base_line b)) r.0.items ++ lines_of r.1.now) }
    ensures bases { IfOk result (λ r. All IsBase r.0.items) }
    ensures all { IfOk result (λ r. FirstIsNot IsBaseLine (lines_of r.1.now)) }
{
    let mut bases = Vec::new(alloc);
    let mut rest = text;
    while let Some((line, after)) = cut_line(rest) {
        let Some(base) = parse_base(line) else {
            return Ok((bases, rest));
        };
        bases.push(base)?;
        rest = after;
    }
    Ok((bases, rest))
}

/// The bases that stand behind the header, and the text after these; none where there is no header, or not the one for
/// such bases.
pub fn read_head(alloc: Global, text: &[u8]) -> Result<Option<(Vec<(u16, u64)>, &[u8])>, AllocError>
    ensures lines { IfOk result (λ o. IfSome o (λ r. lines_of text.now ≡ ended (header_line r.0.items) ∷ (map (λ b. ended (base_line b)) r.0.items ++ lines_of r.1.now))) }
    ensures bases { IfOk result (λ o. IfSome o (λ r. All IsBase r.0.items)) }
    ensures all { IfOk result (λ o. IfSome o (λ r. (r.0.items ≡ []) ⊎ FirstIsNot IsBaseLine (lines_of r.1.now))) }
    ensures none { IfOk result (λ o. IfNone o ((bases : List (ℕ × ℕ)) (rest : List (List ℕ)) → All IsBase bases → lines_of text.now ≢ ended (header_line bases) ∷ (map (λ b. ended (base_line b)) bases ++ rest))) }
{
    if let Some(rest) = skip_line(text, b"nostr-plan 1") {
        return Ok(Some((Vec::new(alloc), rest)));
    }
    let Some(rest) = skip_line(text, b"nostr-plan 2") else {
        return Ok(None);
    };
    let (bases, rest) = take_bases(alloc, rest)?;
    if bases.is_empty() {
        Ok(None)
    } else {
        Ok(Some((bases, rest)))
    }
}

/// The offers at the front, as long as their lines are in order, and the text after these.
fn take_offers(alloc: Global, text: &[u8]) -> Result<(Vec<(Id, Vec<u16>)>, &[u8]), AllocError>
    ensures lines { IfOk result (λ r. lines_of text.now ≡ map (λ o. ended (offer_line o)) (pairs_of r.0.items) ++ lines_of r.1.now) }
    ensures form { IfOk result (λ r. All IsOffer (pairs_of r.0.items)) }
    ensures offers { IfOk result (λ r. IsOffers (pairs_of r.0.items)) }
{
    let mut offers = Vec::new(alloc);
    let mut before = None;
    let mut rest = text;
    while let Some((line, after)) = cut_line(rest) {
        let Some(offer) = parse_offer(alloc, line)? else {
            return Ok((offers, rest));
        };
        if !comes_behind(before, offer.0) {
            return Ok((offers, rest));
        }
        before = Some(offer.0);
        offers.push(offer)?;
        rest = after;
    }
    Ok((offers, rest))
}

/// The gives at the front, as long as their lines are in order, and the text after these.
fn take_gives(alloc: Global, text: &[u8]) -> Result<(Vec<(Id, u16)>, &[u8]), AllocError>
    ensures lines { IfOk result (λ r. lines_of text.now ≡ map (λ g. ended (give_line g)) r.0.items ++ lines_of r.1.now) }
    ensures form { IfOk result (λ r. All IsGive r.0.items) }
    ensures ascend { IfOk result (λ r. Ascend (map (λ g. g.0) r.0.items)) }
{
    let mut gives = Vec::new(alloc);
    let mut before = None;
    let mut rest = text;
    while let Some((line, after)) = cut_line(rest) {
        let Some(give) = parse_give(line) else {
            return Ok((gives, rest));
        };
        if !comes_behind(before, give.0) {
            return Ok((gives, rest));
        }
        before = Some(give.0);
        gives.push(give)?;
        rest = after;
    }
    Ok((gives, rest))
}

/// The group of the one line that is left, where its relays rise.
fn take_group(alloc: Global, text: &[u8]) -> Result<Option<Vec<u16>>, AllocError>
    ensures lines { IfOk result (λ r. IfSome r (λ group. lines_of text.now ≡ ended (group_line group.items) ∷ [])) }
    ensures group { IfOk result (λ r. IfSome r (λ group. AreRelays group.items)) }
{
    let Some((line, rest)) = cut_line(text) else {
        return Ok(None);
    };
    if !rest.is_empty() {
        return Ok(None);
    }
    parse_group(alloc, line)
}

/// The lists that a plan text tells, where all is in order.
fn read_lists(alloc: Global, text: &[u8]) -> Result<Option<Lists>, AllocError>
    ensures lines { IfOk result (λ o. IfSome o (λ l. lines_of text.now ≡ plan_lines (record { bases = l.bases.items; offers = pairs_of l.offers.items; gives = l.gives.items; group = l.group.items }))) }
    ensures form { IfOk result (λ o. IfSome o (λ l. IsOfForm (record { bases = l.bases.items; offers = pairs_of l.offers.items; gives = l.gives.items; group = l.group.items }))) }
    ensures file { IfOk result (λ o. IfSome o (λ l. IsFile (record { bases = l.bases.items; offers = pairs_of l.offers.items; gives = l.gives.items; group = l.group.items }))) }
{
    let Some((bases, rest)) = read_head(alloc, text)? else {
        return Ok(None);
    };
    if misplaced_base(&bases).is_some() {
        return Ok(None);
    }
    let (offers, rest) = take_offers(alloc, rest)?;
    let (gives, rest) = take_gives(alloc, rest)?;
    let Some(group) = take_group(alloc, rest)? else {
        return Ok(None);
    };
    Ok(Some(Lists {
        bases,
        offers,
        gives,
        group,
    }))
}

/// The plan file of a plan text; none where the text is none. What is wrong with a text is not looked for here.
fn file_of(alloc: Global, text: &[u8]) -> Result<Option<PlanFile>, AllocError>
    ensures { IfOk result (λ o. IfSome o (IsTextOf text.now)) }
{
    let Some(lists) = read_lists(alloc, text)? else {
        return Ok(None);
    };
    let file = PlanFile::in_order(lists.bases, lists.offers, lists.gives, lists.group);
    Ok(Some(file))
}

/// The plan file of a text, in time linear in the text's length.
///
/// `Line` goes before `Order`: it is answered where any line is not of the form, out of place or missing. A last line
/// without its line feed is not of the form; where the text ends after a whole line before the group, the line after
/// the last is missing. A text that is no plan text is refused by its fault, whatever memory there is.
pub fn read_plan(alloc: Global, text: &str) -> Result<PlanFile, PlanFault>
    ensures ok { IfOk result (IsTextOf text.now) }
    ensures err { IfErr result (IsReadFault text.now) }
    ensures exact { (file : File) → IsTextOf text.now file → (result ≡ Ok file) ⊎ (result ≡ Err memory) }
    ensures refused { (fault : AFault) → IsTextFault text.now fault → result ≡ Err fault }
{
    parse_plan(alloc, text.as_bytes())
}

/// The same as [`read_plan`] of bytes that need not be UTF-8. Those of a plan text are.
pub fn parse_plan(alloc: Global, text: &[u8]) -> Result<PlanFile, PlanFault>
    ensures ok { IfOk result (IsTextOf text.now) }
    ensures utf8 { IfOk result (λ _. IsUtf8 text.now) }
    ensures err { IfErr result (IsReadFault text.now) }
    ensures exact { (file : File) → IsTextOf text.now file → (result ≡ Ok file) ⊎ (result ≡ Err memory) }
    ensures refused { (fault : AFault) → IsTextFault text.now fault → result ≡ Err fault }
{
    if let Ok(Some(file)) = file_of(alloc, text) {
        return Ok(file);
    }
    match scan(text) {
        Ok(_) => Err(PlanFault::Memory),
        Err(fault) => Err(fault),
    }
}
