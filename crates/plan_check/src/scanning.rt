//! Whether a text is a plan text, and what is wrong where it is none. Nothing here takes memory.

ghost use Rattle.std.specs.Prelude.{◌≡◌, ◌≢◌, ◌&&◌, ◌+◌, ◌<◌, ◌≤◌, ◌∷◌, ◌↔◌, ℕ, List, length, All, IsTrue, IfOk, IfErr, IfSome, IfNone, Ok, Err};
ghost use Rattle.item_key.specs.declared.Id.{Id as AnId};
ghost use Rattle.sharing.specs.declared.TheConstants.{RELAYS};
ghost use Rattle.plan_check.specs.declared.faults.PlanFault.{PlanFault as AFault};
ghost use Rattle.plan_check.specs.File.{File};
ghost use Rattle.plan_check.specs.Lines.{is_behind, rises};
ghost use Rattle.sharing.specs.Offers.{id_cmp};
ghost use Rattle.plan_check.specs.TextLines.{lines_of, ended, FirstIsNot};
ghost use Rattle.plan_check.specs.PlanText.{offer_line, group_line, IsOffer, IsTextOf};
ghost use Rattle.plan_check.specs.PlanParts.{IsGroupLine, IsHead, AreBaseLines, AreOfferLines, AreGiveLines, IsTail};
ghost use Rattle.plan_check.specs.PlanReading.{IsTextFault, IsFirstWrong};

use crate::PlanFault;
use crate::order::{Counts, Places, comes_behind, comes_next, first_place, note};
use crate::records::{cut_offer, parse_base, parse_give};
use crate::text_lines::cut_line;
use crate::words::{scan_relays, skip_word};
use item_key::Id;

/// Lines of one kind at the front of a text: how many, the place of the first that is out of order, and the text after
/// them.
#[derive(Clone, Copy)]
pub(crate) struct Run<'a> {
    pub(crate) count: usize,
    pub(crate) out: Option<usize>,
    pub(crate) rest: &'a [u8],
}

/// The text after a first line that is this one.
pub(crate) fn skip_line<'a>(text: &'a [u8], line: &[u8]) -> Option<&'a [u8]>
    ensures found { IfSome result (λ rest. lines_of text.now ≡ ended line.now ∷ lines_of rest.now) }
    ensures room { IfSome result (λ rest. length line.now + length rest.now < length text.now) }
    ensures none { IfNone result (FirstIsNot (λ l. l ≡ ended line.now) (lines_of text.now)) }
{
    let (first, rest) = cut_line(text)?;
    if first == line { Some(rest) } else { None }
}

/// The id of the offer of a line without its line feed, and whether its relays rise.
fn scan_offer(line: &[u8]) -> Option<(Id, bool)>
    ensures found { IfSome result (λ o. (relays : List ℕ) × IsOffer (o.0, relays) × (line.now ≡ offer_line (o.0, relays)) × (o.1 ≡ rises relays)) }
    ensures none { IfNone result ((o : AnId × List ℕ) → IsOffer o → line.now ≢ offer_line o) }
{
    let (id, rest) = cut_offer(line)?;
    let rises = scan_relays(rest)?;
    Some((id, rises))
}

/// Whether an offer is in order: its id comes behind the one before, and its relays rise.
fn is_fine(before: Option<Id>, id: Id, rises: bool) -> bool
    ensures { result ≡ (is_behind id_cmp before id && rises) }
{
    comes_behind(before, id) && rises
}

/// The bases at the front.
fn scan_bases(text: &[u8]) -> Run<'_>
    ensures run { AreBaseLines (lines_of text.now) (lines_of result.rest.now) result.count result.out }
    ensures room { result.count + length result.rest.now ≤ length text.now }
{
    let mut count = 0;
    let mut out = None;
    let mut before = None;
    let mut rest = text;
    while let Some((line, after)) = cut_line(rest) {
        let Some(base) = parse_base(line) else {
            return Run { count, out, rest };
        };
        out = note(out, comes_next(before, base.0), count);
        before = Some(base.0);
        count += 1;
        rest = after;
    }
    Run { count, out, rest }
}

/// The offers at the front.
fn scan_offers(text: &[u8]) -> Run<'_>
    ensures run { AreOfferLines (lines_of text.now) (lines_of result.rest.now) result.count result.out }
    ensures room { result.count + length result.rest.now ≤ length text.now }
    ensures within { IfSome result.out (λ k. k < result.count) }
{
    let mut count = 0;
    let mut out = None;
    let mut before = None;
    let mut rest = text;
    while let Some((line, after)) = cut_line(rest) {
        let Some((id, rises)) = scan_offer(line) else {
            return Run { count, out, rest };
        };
        out = note(out, is_fine(before, id, rises), count);
        before = Some(id);
        count += 1;
        rest = after;
    }
    Run { count, out, rest }
}

/// The gives at the front.
fn scan_gives(text: &[u8]) -> Run<'_>
    ensures run { AreGiveLines (lines_of text.now) (lines_of result.rest.now) result.count result.out }
    ensures room { result.count + length result.rest.now ≤ length text.now }
    ensures within { IfSome result.out (λ k. k < result.count) }
{
    let mut count = 0;
    let mut out = None;
    let mut before = None;
    let mut rest = text;
    while let Some((line, after)) = cut_line(rest) {
        let Some(give) = parse_give(line) else {
            return Run { count, out, rest };
        };
        out = note(out, comes_behind(before, give.0), count);
        before = Some(give.0);
        count += 1;
        rest = after;
    }
    Run { count, out, rest }
}

/// Whether the relays of the group of the first line rise, and the text after it.
fn scan_group(text: &[u8]) -> Option<(bool, &[u8])>
    ensures found { IfSome result (λ cut. (group : List ℕ) × All (λ r. r < RELAYS) group × (lines_of text.now ≡ ended (group_line group) ∷ lines_of cut.1.now) × (cut.0 ≡ rises group)) }
    ensures none { IfNone result (FirstIsNot IsGroupLine (lines_of text.now)) }
{
    let (line, rest) = cut_line(text)?;
    let relays = skip_word(line, b"group")?;
    let rises = scan_relays(relays)?;
    Some((rises, rest))
}

/// The header and the bases, or the number of the first line that is wrong.
fn scan_head(text: &[u8]) -> Result<Run<'_>, usize>
    ensures head { IfOk result (λ r. IsHead (lines_of text.now) (lines_of r.rest.now) r.count r.out) }
    ensures room { IfOk result (λ r. r.count + length r.rest.now + 12 ≤ length text.now) }
    ensures err { IfErr result (λ n. IsFirstWrong (lines_of text.now) n) }
{
    if let Some(rest) = skip_line(text, b"nostr-plan 1") {
        return Ok(Run {
            count: 0,
            out: None,
            rest,
        });
    }
    let Some(rest) = skip_line(text, b"nostr-plan 2") else {
        return Err(1);
    };
    let bases = scan_bases(rest);
    if bases.count == 0 { Err(2) } else { Ok(bases) }
}

/// Whether what stands behind a text's offers is gives and a group, in order.
pub fn is_tail(text: &[u8]) -> bool
    ensures { IsTrue result ↔ IsTail (lines_of text.now) }
{
    let gives = scan_gives(text);
    match scan_group(gives.rest) {
        Some((rises, rest)) => gives.out.is_none() && rises && rest.is_empty(),
        None => false,
    }
}

/// The number of the offers of a plan text, or why the text is none.
pub(crate) fn scan(text: &[u8]) -> Result<usize, PlanFault>
    ensures ok { IfOk result (λ n. (file : File) × IsTextOf text.now file × (length file.offers ≡ n)) }
    ensures err { IfErr result (IsTextFault text.now) }
{
    let bases = match scan_head(text) {
        Ok(bases) => bases,
        Err(n) => return Err(PlanFault::Line(n)),
    };
    let offers = scan_offers(bases.rest);
    let gives = scan_gives(offers.rest);
    let lines = bases.count + offers.count + gives.count;
    let Some((rises, rest)) = scan_group(gives.rest) else {
        return Err(PlanFault::Line(lines + 2));
    };
    if !rest.is_empty() {
        return Err(PlanFault::Line(lines + 3));
    }
    let counts = Counts {
        bases: bases.count,
        offers: offers.count,
        gives: gives.count,
    };
    let places = Places {
        base: bases.out,
        offer: offers.out,
        give: gives.out,
        group: rises,
    };
    match first_place(counts, places) {
        Some(place) => Err(PlanFault::Order(place.saturating_add(2))),
        None => Ok(offers.count),
    }
}

/// The number of the offers of a plan text, or why the text is none. Takes no memory.
pub fn scan_plan(text: &str) -> Result<usize, PlanFault>
    ensures ok { IfOk result (λ n. (file : File) × IsTextOf text.now file × (length file.offers ≡ n)) }
    ensures err { IfErr result (IsTextFault text.now) }
    ensures exact { (file : File) → IsTextOf text.now file → result ≡ Ok (length file.offers) }
    ensures refused { (fault : AFault) → IsTextFault text.now fault → result ≡ Err fault }
{
    scan(text.as_bytes())
}
