//! What is done with the stretches of a reply.

ghost use Rattle.std.specs.Prelude.{◌≡◌, ◌<◌, ◌≤◌, ◌⊎◌, [], length, IfOk, IfErr, OnOk, Err};
ghost use Rattle.item_key.specs.Keys.{place};
ghost use Rattle.neg_codec.specs.Ranges.{ids, edge_of, span_of};
ghost use Rattle.neg_codec.specs.Encoding.{text_of};
ghost use Rattle.item_roll.specs.Parts.{part, ids_of};
ghost use Rattle.neg_draft.specs.Coverage.{IsDraft};
ghost use Rattle.neg_initiator.specs.Lookups.{ids_in, IsSet};
ghost use Rattle.neg_initiator.specs.Listed.{PassesMost};
ghost use Rattle.neg_initiator.specs.Made.{asking};
ghost use Rattle.neg_initiator.specs.Session.{IsSound, Taken, HasOpen, LeavesOpen};
ghost use Rattle.neg_initiator.specs.Settling.{AccountsFor, Finds, Settles};
ghost use Rattle.neg_initiator.specs.Findings.{findings_of};
ghost use Rattle.neg_initiator.specs.Walked.{IsRead};

use crate::InitFault;
use crate::found::{Found, compare, tidy};
use crate::trust::{trust, trust_skipped};
use item_key::Id;
use item_roll::Roll;
use neg_codec::{Bound, Message, Payload, Range};
use neg_draft::Draft;
use std::alloc::{AllocError, Global};

/// Takes in the ids that are listed of a stretch.
fn settle_ids(
    alloc: Global,
    roll: &Roll,
    draft: &mut Draft,
    found: &mut Found,
    lower: &Bound,
    upper: &Bound,
    listed: &[Id],
) -> Result<(), AllocError>
    requires { place (edge_of lower.now) < place (edge_of upper.now) }
    ensures finds { OnOk result (Finds roll.now (edge_of lower.now) (record { upper = edge_of upper.now; claim = ids listed.now }) (findings_of found.old) (findings_of found.new)) }
    ensures accounts { OnOk result (AccountsFor roll.now (findings_of found.new) (edge_of lower.now) (edge_of upper.now) (ids listed.now)) }
    ensures most { found.new.most ≡ found.old.most }
    ensures kept { draft.new ≡ draft.old }
{
    let (lo, hi) = draft.places(roll, lower, upper);
    let own = roll.ids(alloc, lo, hi)?;
    compare(alloc, found, &own, listed)?;
    Ok(())
}

/// The draft of the next ask after a range of the reply, begun at a bound.
pub fn settle_range(
    alloc: Global,
    roll: &Roll,
    found: &mut Found,
    draft: Draft,
    lower: &Bound,
    range: &Range,
) -> Result<Draft, AllocError>
    requires reached { place draft.end ≡ place (edge_of lower.now) }
    requires ahead { place (edge_of lower.now) ≤ place (edge_of range.now.upper) }
    ensures finds { OnOk result (Finds roll.now (edge_of lower.now) (span_of range.now) (findings_of found.old) (findings_of found.new)) }
    ensures settles { IfOk result (λ d. Settles roll.now (edge_of lower.now) (span_of range.now) (findings_of found.new) draft d) }
    ensures draft { IsDraft draft }
    ensures most { found.new.most ≡ found.old.most }
{
    let _ = draft.end();
    let mut draft = draft;
    if !lower.is_below(&range.upper) {
        return Ok(draft.skip(range.upper));
    }
    match &range.payload {
        Payload::Skip => Ok(draft.skip(range.upper)),
        Payload::Print(print) => {
            if draft.has_print(roll, lower, &range.upper, print) {
                trust(&mut found.trusted, *lower, range.upper)?;
                Ok(draft.skip(range.upper))
            } else {
                draft.tell_split(alloc, roll, range.upper)
            }
        }
        Payload::Ids(listed) => {
            settle_ids(alloc, roll, &mut draft, found, lower, &range.upper, listed)?;
            Ok(draft.skip(range.upper))
        }
    }
}

/// The draft of the next ask after a reply, and up to where the reply was read: what lies behind the place
/// where the draft was cut is passed over.
fn walk(
    alloc: Global,
    roll: &Roll,
    limit: usize,
    answered: &Message,
    found: &mut Found,
) -> Result<(Draft, Bound), AllocError>
    requires { 4096 ≤ limit }
    ensures read { IfOk result (λ x. IsRead limit roll.now answered.now (findings_of found.old) (findings_of found.new) (edge_of x.1) x.0) }
    ensures draft { IfOk result (λ x. IsDraft x.0) }
    ensures most { found.new.most ≡ found.old.most }
{
    let mut draft = Draft::new(alloc, limit);
    let mut lower = Bound::lowest();
    for range in answered.ranges() {
        draft = settle_range(alloc, roll, found, draft, &lower, range)?;
        if draft.is_over() {
            return Ok((draft, range.upper));
        }
        lower = range.upper;
    }
    let _ = draft.end();
    Ok((draft, Bound::Infinite))
}

/// The next ask, of no more bytes than the limit, after a reply to the last one: what the reply leaves
/// open. Ask and reply are walked once, a list of ids costs a pass over the items it tells of, a long one a
/// sort too, and a fingerprint two searches and at most 32 ids added up.
pub fn settle(
    alloc: Global,
    roll: &Roll,
    limit: usize,
    asked: &Message,
    answered: &Message,
    found: &mut Found,
) -> Result<Message, InitFault>
    requires { IsSound (asking limit roll.now asked.now (findings_of found.old) found.old.most) }
    ensures taken { IfOk result (λ next. Taken answered.now (asking limit roll.now asked.now (findings_of found.old) found.old.most) (asking limit roll.now next (findings_of found.new) found.new.most)) }
    ensures short { IfOk result (λ next. length (text_of next) ≤ limit) }
    ensures leaves_open { IfOk result (λ next. (next ≡ []) ⊎ HasOpen next) }
    ensures due { IfOk result (λ next. (next ≡ [] → LeavesOpen roll.now answered.now → ⊥) × ((next ≡ [] → ⊥) → LeavesOpen roll.now answered.now)) }
    ensures sets { IfOk result (λ next. next ≡ [] → IsSet found.new.need × IsSet found.new.have) }
    ensures within { OnOk result (length (ids_in found.new.need) ≤ found.new.most) }
    ensures full { result ≡ Err InitFault.NeedFull → PassesMost roll.now answered.now (ids_in found.old.need) found.old.most }
    ensures fault { IfErr result (λ e. (e ≡ InitFault.NeedFull) ⊎ (e ≡ InitFault.Memory)) }
{
    let (draft, until) = walk(alloc, roll, limit, answered, found)?;
    trust_skipped(asked, answered, &until, &mut found.trusted)?;
    let next = draft.into_message();
    tidy(alloc, found, roll.len(), next.ranges().is_empty())?;
    if found.need.len() > found.most {
        return Err(InitFault::NeedFull);
    }
    Ok(next)
}
