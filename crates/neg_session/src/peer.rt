//! Peers, and what they were asked and answered.

ghost use Rattle.std.specs.Prelude.{◌≡◌, ℕ, ◌+◌, ◌<◌, ◌^◌, ◌-◌, List, [], ◌∷◌, ◌++◌, IfOk, IfErr, OnErr, Err};
ghost use Rattle.neg_session.specs.Exchange.{Exchange, exchange};

use crate::fault::SessionFault;
use neg_initiator::Outcome;
use std::alloc::{AllocError, AllocFailed};
use std::marker::Model;
use thiserror::Error;

/// One question and its answer.
pub struct Pair {
    pub asked: Vec<u8>,
    pub answered: Vec<u8>,
}

// By hand, as a derived one is proved anew wherever a value is dropped.
impl Drop for Pair {
    fn drop(self) {
        let Self {
            asked: _,
            answered: _,
        } = self;
    }
}

impl Model for Pair {
    ghost use Rattle.neg_session.specs.Exchange.{Exchange};

    ghost Value = { Exchange };

    ghost view = { λ p. record { asked = p.asked.items; answered = p.answered.items } };
}

/// Why a peer gave no answer.
#[derive(Clone, Copy, Debug, PartialEq, Eq, Error)]
pub enum PeerFault {
    /// The peer failed, and its count of failures rose.
    #[error("the peer failed")]
    Failed,
    /// No memory was found.
    #[error("out of memory")]
    Memory,
}

impl From<AllocError> for PeerFault {
    ghost use Rattle.std.specs.Prelude.{◌≡◌};
    ghost use Rattle.neg_session.specs.declared.peer.PeerFault.TheVariants.{Memory};

    ghost from_gives = { λ _ e. e ≡ Memory };

    fn from(_error: AllocError) -> PeerFault {
        PeerFault::Memory
    }
}

impl<T: Drop> From<AllocFailed<T>> for PeerFault {
    ghost use Rattle.std.specs.Prelude.{◌≡◌};
    ghost use Rattle.neg_session.specs.declared.peer.PeerFault.TheVariants.{Memory};

    ghost from_gives = { λ _ e. e ≡ Memory };

    fn from(_error: AllocFailed<T>) -> PeerFault {
        PeerFault::Memory
    }
}

/// The other side of a session. It keeps what it was asked and what it answered.
pub trait Peer {
    /// The pairs of questions and answers, the first first.
    ghost log: { Self → List Exchange };

    /// How often it failed.
    ghost faults: { Self → ℕ };

    /// What calls may make of a peer.
    ghost becomes: { Self → Self → Type 0 };

    /// The questions at which it may fail.
    ghost fails: { List ℕ → Type 0 };

    /// Asks a question, and gives the answer. An answer adds its pair to the log, and a fault adds none. The count of
    /// failures rises where the peer failed, and not for want of memory.
    fn ask(&mut self, question: &[u8]) -> Result<Vec<u8>, PeerFault>
        requires { faults self.old < 2 ^ 64 - 1 }
        ensures ok { IfOk result (λ answer. (log self.new ≡ log self.old ++ exchange question.now answer.items ∷ []) × (faults self.new ≡ faults self.old)) }
        ensures err { OnErr result (log self.new ≡ log self.old) }
        ensures failed { result ≡ Err PeerFault.Failed → (faults self.old < faults self.new) × fails question.now }
        ensures memory { result ≡ Err PeerFault.Memory → faults self.new ≡ faults self.old }
        ensures becomes { becomes self.old self.new };

    /// The pairs of questions and answers, the first first.
    fn pairs(&self) -> &[Pair]
        ensures { result.now ≡ log self.now };

    /// How often it failed.
    fn failures(&self) -> u64
        ensures { result ≡ faults self.now };

    /// Is told how a session with it ended.
    fn ended(&self, end: Result<&Outcome, SessionFault>) {
        let _ = end;
    }

    ghost stays: { (p : Self) → becomes p p };

    ghost goes_on: { (p q r : Self) → becomes p q → becomes q r → becomes p r };
}
