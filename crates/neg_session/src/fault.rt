//! Why a session ended without a result.

ghost use Rattle.std.specs.Prelude.{◌≡◌};
ghost use Rattle.neg_session.specs.Faults.{number_of};

use crate::peer::PeerFault;
use neg_codec::CodecFault;
use thiserror::Error;

/// Why a session ended without a result.
#[derive(Clone, Copy, Debug, PartialEq, Eq, Error)]
pub enum SessionFault {
    /// The peer failed.
    #[error("the peer failed")]
    PeerFailed,
    /// The last answer is no message.
    #[error("bad answer: {0}")]
    Bad(CodecFault),
    /// More questions would be asked than may be.
    #[error("too many rounds")]
    Rounds,
    /// More ids would be needed than may be.
    #[error("too many ids are needed")]
    NeedFull,
    /// The answers have more bytes together than they may have.
    #[error("too many bytes were answered")]
    LogFull,
    /// No memory was found.
    #[error("out of memory")]
    Memory,
}

impl SessionFault {
    /// The fault's number, 1 to 6.
    pub fn number(self) -> u8
        ensures { result ≡ number_of self }
    {
        match self {
            SessionFault::PeerFailed => 1,
            SessionFault::Bad(_) => 2,
            SessionFault::Rounds => 3,
            SessionFault::NeedFull => 4,
            SessionFault::LogFull => 5,
            SessionFault::Memory => 6,
        }
    }
}

impl From<PeerFault> for SessionFault {
    ghost use Rattle.std.specs.Prelude.{◌≡◌};
    ghost use Rattle.neg_session.specs.Faults.{fault_of};

    ghost from_gives = { λ f e. e ≡ fault_of f };

    fn from(fault: PeerFault) -> SessionFault {
        match fault {
            PeerFault::Failed => SessionFault::PeerFailed,
            PeerFault::Memory => SessionFault::Memory,
        }
    }
}
