//! A whole session.

ghost use Rattle.std.specs.Prelude.{◌≡◌, ◌≢◌, ◌<◌, ◌≤◌, ◌^◌, ◌-◌, ◌+◌, ℕ, List, length, IfOk, OnOk, IfErr, IsTrue, Err};
ghost use Rattle.neg_initiator.specs.Session.{IsAskDue};
ghost use Rattle.neg_initiator.specs.declared.phase.Phase.TheVariants as phase;
ghost use Rattle.neg_session.specs.Exchange.{gained};
ghost use Rattle.neg_session.specs.Asking.{MayAsk};
ghost use Rattle.neg_session.specs.Faults.{IsToldAs};
ghost use Rattle.neg_session.specs.Turn.{GoesBy, EndsBy};
ghost use Rattle.neg_session.specs.Ran.{Ran};

use crate::fault::SessionFault;
use crate::limits::SessionLimits;
use crate::peer::Peer;
use item_roll::Roll;
use neg_codec::one_message;
use neg_initiator::{InitFault, Initiator, Next, Outcome};
use std::alloc::Global;

/// How a session ends whose answer wasn't taken.
fn told_as(fault: InitFault) -> SessionFault
    requires { fault ≢ InitFault.Spent }
    ensures { IsToldAs fault result }
{
    match fault {
        InitFault::Bad(fault) => SessionFault::Bad(fault),
        InitFault::NeedFull => SessionFault::NeedFull,
        InitFault::Memory => SessionFault::Memory,
        InitFault::Spent => unreachable!(),
    }
}

/// Takes an answer, and gives what comes next. So many bytes may still be answered, this one's among them, and after the last
/// answer nothing may be asked.
fn take_answer(
    initiator: &mut Initiator,
    answer: &[u8],
    left: usize,
    is_last: bool,
) -> Result<Next, SessionFault>
    requires { initiator.old.phase ≡ phase.Asking }
    ensures goes { IfOk result (GoesBy answer.now initiator.old initiator.new) }
    ensures room { OnOk result (length answer.now ≤ left) }
    ensures last { OnOk result (IsTrue is_last → IsAskDue initiator.old.roll answer.now → ⊥) }
    ensures ends { IfErr result (EndsBy answer.now left is_last initiator.old initiator.new) }
{
    match initiator.take(answer) {
        Ok(Next::Ask(_)) if is_last => Err(SessionFault::Rounds),
        Ok(_) if left < answer.len() => Err(SessionFault::LogFull),
        Ok(next) => Ok(next),
        Err(fault) => Err(told_as(fault)),
    }
}

/// Asks the peer until all is settled, and gives what was found. A fault ends the session, and the
/// peer keeps its pairs. Of several faults of one answer the one with the lowest number is given; after an answer that
/// is no message, or that asks for too many ids, there is no next question that could be one too many.
pub fn reconcile_with<P: Peer>(
    alloc: Global,
    peer: &mut P,
    roll: &Roll,
    limits: &SessionLimits,
) -> Result<Outcome, SessionFault>
    requires { P.faults peer.old < 2 ^ 64 - 1 }
    ensures ran { Ran roll.now limits.now (P.log peer.old) (P.log peer.new) (P.faults peer.old) (P.faults peer.new) result }
    // The peer fails only at a question that may come next, and at which it may fail.
    ensures failed { result ≡ Err SessionFault.PeerFailed → (question : List ℕ) × MayAsk limits.now.limit roll.now (gained (P.log peer.old) (P.log peer.new)) question × P.fails question }
    ensures becomes { P.becomes peer.old peer.new }
{
    one_message();
    let mut left = limits.log;
    let Ok((mut initiator, mut question)) = Initiator::start(alloc, roll, limits.limit, limits.need)
    else {
        return Err(SessionFault::Memory);
    };
    for round in 0..limits.rounds {
        let answer = peer.ask(&question)?;
        let is_last = round + 1 == limits.rounds;
        match take_answer(&mut initiator, &answer, left, is_last) {
            Ok(Next::Ask(next)) => {
                left -= answer.len();
                question = next;
            }
            Ok(Next::Done) => return Ok(initiator.outcome()),
            Err(fault) => return Err(fault),
        }
    }
    Err(SessionFault::Rounds)
}
