//! A reply, range by range of the question.

ghost use Rattle.std.specs.Prelude.{◌≤◌, IfOk, length};
ghost use Rattle.neg_codec.specs.Ranges.{span_of};
ghost use Rattle.neg_codec.specs.Encoding.{text_of};
ghost use Rattle.neg_draft.specs.Coverage.{IsDraft};
ghost use Rattle.neg_responder.specs.Reply.{IsReply, Responds};

use item_roll::Roll;
use neg_codec::{Message, Payload, Range};
use neg_draft::Draft;
use std::alloc::{AllocError, Global};

/// The draft after a range of the question, which begins where the draft has come to, unless the draft
/// was cut before.
fn reply_range(alloc: Global, roll: &Roll, draft: Draft, range: &Range) -> Result<Draft, AllocError>
    ensures responds { IfOk result (λ d. Responds roll.now draft (span_of range.now) d) }
    ensures draft { IsDraft draft }
{
    let lower = draft.end();
    let mut draft = draft;
    if !lower.is_below(&range.upper) {
        return Ok(draft.skip(range.upper));
    }
    match &range.payload {
        Payload::Skip => Ok(draft.skip(range.upper)),
        Payload::Print(print) => {
            if draft.has_print(roll, &lower, &range.upper, print) {
                Ok(draft.skip(range.upper))
            } else {
                draft.tell_split(alloc, roll, range.upper)
            }
        }
        Payload::Ids(_) => draft.tell_ids(alloc, roll, range.upper),
    }
}

/// The reply to a question, of no more bytes than the limit.
pub fn reply(
    alloc: Global,
    roll: &Roll,
    asked: &Message,
    limit: usize,
) -> Result<Message, AllocError>
    requires { 4096 ≤ limit }
    ensures replies { IfOk result (λ m. IsReply limit (length (text_of m)) roll.now asked.now m) }
    ensures short { IfOk result (λ m. length (text_of m) ≤ limit) }
{
    let mut draft = Draft::new(alloc, limit);
    for range in asked.ranges() {
        if draft.is_over() {
            return Ok(draft.into_message());
        }
        draft = reply_range(alloc, roll, draft, range)?;
    }
    Ok(draft.into_message())
}
