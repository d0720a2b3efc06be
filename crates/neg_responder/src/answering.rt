//! Answers, as bytes.

ghost use Rattle.std.specs.Prelude.{◌≡◌, ◌≤◌, ◌<◌, ℕ, ◌∷◌, [], List, length, IfOk, IfErr, Err};
ghost use Rattle.neg_codec.specs.Ranges.{Span};
ghost use Rattle.neg_codec.specs.Text.{Spells};
ghost use Rattle.neg_codec.specs.Reading.{longest, message_at};
ghost use Rattle.neg_codec.specs.declared.CodecFault.{CodecFault};
ghost use Rattle.neg_codec.specs.declared.CodecFault.TheVariants as codec;
ghost use Rattle.neg_responder.specs.Reply.{Replies, RefusesQuery};

use crate::ranges::reply;
use item_roll::Roll;
use neg_codec::{CodecFault, Message, decode, encode};
use std::alloc::{AllocError, Global};
use thiserror::Error;

/// Why a query wasn't answered. Both leave the roll as it was.
#[derive(Clone, Copy, Debug, PartialEq, Eq, Error)]
pub enum AnswerFault {
    /// The query is no message: the reader's first fault, which is neither `Version` nor `Memory`.
    #[error("bad query: {0}")]
    Bad(CodecFault),
    /// A growth was refused.
    #[error("out of memory")]
    Memory,
}

impl From<AllocError> for AnswerFault {
    ghost use Rattle.std.specs.Prelude.{◌≡◌};
    ghost use Rattle.neg_responder.specs.declared.answering.AnswerFault.TheVariants.{Memory};

    ghost from_gives = { λ _ e. e ≡ Memory };

    fn from(_error: AllocError) -> AnswerFault {
        AnswerFault::Memory
    }
}

/// The one byte that tells which version is spoken.
fn own_version(alloc: Global) -> Result<Vec<u8>, AnswerFault>
    ensures version { IfOk result (λ v. v.items ≡ 0x61 ∷ []) }
    ensures fault { IfErr result (λ e. e ≡ AnswerFault.Memory) }
{
    match vec![in alloc; 0x61] {
        Ok(bytes) => Ok(bytes),
        Err(_) => Err(AnswerFault::Memory),
    }
}

/// The answer to a message.
fn answer_message(
    alloc: Global,
    roll: &Roll,
    asked: &Message,
    limit: usize,
) -> Result<Vec<u8>, AnswerFault>
    requires { 4096 ≤ limit }
    ensures replies { IfOk result (λ v. Replies limit roll.now asked.now v.items) }
    ensures short { IfOk result (λ v. length v.items ≤ limit) }
    ensures fault { IfErr result (λ e. e ≡ AnswerFault.Memory) }
{
    let message = reply(alloc, roll, asked, limit)?;
    let bytes = encode(alloc, &message)?;
    Ok(bytes)
}

/// The answer to bytes that aren't read as a message.
fn answer_fault(alloc: Global, fault: CodecFault) -> Result<Vec<u8>, AnswerFault>
    ensures bad { (f : CodecFault) → result ≡ Err (AnswerFault.Bad f) → (f ≡ fault) × RefusesQuery fault }
    ensures refused { RefusesQuery fault → result ≡ Err (AnswerFault.Bad fault) }
    ensures version { (b : ℕ) → fault ≡ codec.Version b → IfOk result (λ v. v.items ≡ 0x61 ∷ []) }
    ensures others { IfOk result (λ v. (b : ℕ) × (fault ≡ codec.Version b)) }
    ensures own { IfOk result (λ v. v.items ≡ 0x61 ∷ []) }
{
    match fault {
        CodecFault::Version(_) => own_version(alloc),
        CodecFault::Memory => Err(AnswerFault::Memory),
        other => Err(AnswerFault::Bad(other)),
    }
}

/// The answer of a roll to a query (Negentropy protocol V1).
///
/// Range by range of the query: a Skip stays one, and so does a fingerprint that is the roll's own;
/// another fingerprint is answered by the ids of fewer than 32 items or by 16 fingerprints, and ids by the
/// roll's ids. Neighbouring Skips are one range, and a Skip at the end isn't written. A query of another
/// version is answered by the one byte 61, the version that is spoken here.
///
/// The answer has no more bytes than the limit. A list that doesn't fit is cut, and what the roll has from
/// there on is told by one fingerprint up to infinity, whatever the query says of it.
///
/// The cost is a pass over the query, for each list in it a pass over the items that it tells of, and for
/// each fingerprint two searches and at most 32 ids added up.
///
/// # Errors
///
/// `Bad` where the query is no message, with the reader's fault, but for one of another version, and `Memory` where a
/// growth was refused.
pub fn answer(
    alloc: Global,
    roll: &Roll,
    query: &[u8],
    limit: usize,
) -> Result<Vec<u8>, AnswerFault>
    requires { 4096 ≤ limit }
    // The answer follows the roll, and skips what the query skips or tells by the roll's own fingerprint, as far as it
    // wasn't cut. It tells the other ranges by a split, or by the roll's ids where the query lists some, as far as it
    // wasn't cut. No range of it is empty, no two Skips are neighbours, and the last range isn't one.
    ensures replies { IfOk result (λ v. (q : List Span) → length query.now ≤ longest → Spells query.now q → Replies limit roll.now q v.items) }
    // It is no longer than the limit.
    ensures short { IfOk result (λ v. length v.items ≤ limit) }
    // A query is refused just where it is no message, and by that fault.
    ensures bad { (f : CodecFault) → result ≡ Err (AnswerFault.Bad f) → (message_at query.now ≡ Err f) × RefusesQuery f }
    ensures refused { (f : CodecFault) → message_at query.now ≡ Err f → RefusesQuery f → result ≡ Err (AnswerFault.Bad f) }
    // Another version is no fault.
    ensures version { (b : ℕ) → message_at query.now ≡ Err (codec.Version b) → IfOk result (λ v. v.items ≡ 0x61 ∷ []) }
{
    match decode(alloc, query) {
        Ok(asked) => answer_message(alloc, roll, &asked, limit),
        Err(fault) => answer_fault(alloc, fault),
    }
}
