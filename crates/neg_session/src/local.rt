//! A peer in this process.

ghost use Rattle.std.specs.Prelude.{◌≡◌, ◌≤◌, ◌<◌, ◌^◌, ◌+◌, ◌-◌, ◌≢◌, ◌∷◌, ◌++◌, [], All, Err, IfOk, IfErr, OnErr};
ghost use Rattle.item_roll.specs.Parts.{IsRoll};
ghost use Rattle.neg_session.specs.Exchange.{exchange};
ghost use Rattle.neg_session.specs.Explaining.{AnswersBy};
ghost use Rattle.neg_session.specs.Local.{IsAnswered, RollExplains};

use crate::peer::{Pair, Peer, PeerFault};
use item_roll::Roll;
use neg_responder::{AnswerFault, answer};
use std::alloc::Global;
use std::marker::Model;

/// A peer in this process, which answers by a roll. A question that is no message counts as a failure;
/// one of another version is answered by the byte 61.
#[derive(Drop)]
pub struct LocalPeer {
    alloc: Global,
    roll: Roll,
    limit: usize,
    pairs: Vec<Pair>,
    failures: u64,
}

impl Model for LocalPeer {
    ghost use Rattle.std.specs.Prelude.{◌≤◌};
    ghost use Rattle.neg_session.specs.Local.{Local};

    ghost Value = { Local };

    ghost view = { λ p. record { roll = p.roll; limit = p.limit; log = p.pairs.items; faults = p.failures } };

    ghost invariant = { λ p. 4096 ≤ p.limit };
}

impl LocalPeer {
    /// A peer that answers by the roll, with messages of at most `limit` bytes. It takes no memory.
    pub fn new(alloc: Global, roll: Roll, limit: usize) -> LocalPeer
        requires { 4096 ≤ limit }
        ensures keeps { result.roll ≡ roll }
        ensures limit { result.limit ≡ limit }
        ensures log { result.log ≡ [] }
        ensures faults { result.faults ≡ 0 }
        // What is true of each roll.
        ensures roll { IsRoll result.roll }
        // Each answer to a message is the roll's own reply, and keeps the limit: there is none yet.
        ensures answers { All (AnswersBy limit result.roll) result.log }
        ensures pairs { All (IsAnswered limit) result.log }
    {
        let _ = roll.len();
        LocalPeer {
            alloc,
            roll,
            limit,
            pairs: Vec::new(alloc),
            failures: 0,
        }
    }
}

/// A pair of copies.
fn pair_of(alloc: Global, question: &[u8], reply: &[u8]) -> Result<Pair, PeerFault>
    ensures pair { IfOk result (λ p. p ≡ exchange question.now reply.now) }
    ensures memory { IfErr result (λ e. e ≡ PeerFault.Memory) }
{
    Ok(Pair {
        asked: question.to_vec(alloc)?,
        answered: reply.to_vec(alloc)?,
    })
}

/// The roll of a `LocalPeer` explains the pairs that a session gained of it.
pub fn roll_explains()
    ensures { RollExplains }
{}

impl Peer for LocalPeer {
    ghost use Rattle.std.specs.Prelude.{◌≡◌};
    ghost use Rattle.neg_session.specs.Local.{IsRefusedQuestion, Keeps, keeps_itself, keeps_on};

    ghost log = { λ p. p.log };

    ghost faults = { λ p. p.faults };

    ghost becomes = { Keeps };

    ghost fails = { IsRefusedQuestion };

    ghost stays = { keeps_itself };

    ghost goes_on = { keeps_on };

    fn ask(&mut self, question: &[u8]) -> Result<Vec<u8>, PeerFault>
        requires { self.old.faults < 2 ^ 64 - 1 }
        ensures ok { IfOk result (λ answer. (self.new.log ≡ self.old.log ++ exchange question.now answer.items ∷ []) × (self.new.faults ≡ self.old.faults)) }
        ensures err { OnErr result (self.new.log ≡ self.old.log) }
        ensures failed { result ≡ Err PeerFault.Failed → (self.old.faults < self.new.faults) × IsRefusedQuestion question.now }
        ensures memory { result ≡ Err PeerFault.Memory → self.new.faults ≡ self.old.faults }
        ensures becomes { Keeps self.old self.new }
        // A failure is counted once.
        ensures counted { result ≡ Err PeerFault.Failed → self.new.faults ≡ self.old.faults + 1 }
    {
        let reply = match answer(self.alloc, &self.roll, question, self.limit) {
            Ok(reply) => reply,
            Err(AnswerFault::Bad(_)) => {
                self.failures += 1;
                return Err(PeerFault::Failed);
            }
            Err(AnswerFault::Memory) => return Err(PeerFault::Memory),
        };
        let pair = pair_of(self.alloc, question, &reply)?;
        self.pairs.push(pair)?;
        Ok(reply)
    }

    fn pairs(&self) -> &[Pair] {
        &self.pairs
    }

    fn failures(&self) -> u64 {
        self.failures
    }
}
