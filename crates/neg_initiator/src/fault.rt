//! Why a reply isn't taken.

use neg_codec::CodecFault;
use std::alloc::AllocError;
use thiserror::Error;

/// Why a reply wasn't taken.
#[derive(Clone, Copy, Debug, PartialEq, Eq, Error)]
pub enum InitFault {
    /// The reply is no message.
    #[error("bad reply: {0}")]
    Bad(CodecFault),
    /// More ids would be needed than may be.
    #[error("too many ids are needed")]
    NeedFull,
    /// The session is done, or a reply was refused before.
    #[error("the session is over")]
    Spent,
    /// No memory was found.
    #[error("out of memory")]
    Memory,
}

impl From<AllocError> for InitFault {
    ghost use Rattle.std.specs.Prelude.{◌≡◌};
    ghost use Rattle.neg_initiator.specs.declared.fault.InitFault.TheVariants.{Memory};

    ghost from_gives = { λ _ e. e ≡ Memory };

    fn from(_error: AllocError) -> InitFault {
        InitFault::Memory
    }
}
