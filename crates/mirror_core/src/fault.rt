//! Why no plan was made.

use std::alloc::{AllocError, AllocFailed};
use thiserror::Error;

/// Why no plan was made.
#[derive(Clone, Copy, Debug, PartialEq, Eq, Error)]
pub enum SyncFault {
    /// There is no relay.
    #[error("no relay")]
    NoRelay,
    /// There are more than 256 relays.
    #[error("more than 256 relays")]
    TooMany,
    /// More than 200,000 ids are needed together.
    #[error("more than 200,000 ids are needed")]
    TableFull,
    /// No memory was found.
    #[error("out of memory")]
    Memory,
}

impl From<AllocError> for SyncFault {
    ghost use Rattle.std.specs.Prelude.{◌≡◌};
    ghost use Rattle.mirror_core.specs.declared.fault.SyncFault.TheVariants.{Memory};

    ghost from_gives = { λ _ e. e ≡ Memory };

    fn from(_error: AllocError) -> SyncFault {
        SyncFault::Memory
    }
}

/// Why a part of the sessions gave no table.
#[derive(Clone, Copy)]
pub(crate) enum PartFault {
    /// More than 200,000 ids are needed together.
    TableFull,
    /// No memory was found.
    Memory,
}

impl From<AllocError> for PartFault {
    ghost use Rattle.std.specs.Prelude.{◌≡◌};
    ghost use Rattle.mirror_core.specs.declared.fault.PartFault.TheVariants.{Memory};

    ghost from_gives = { λ _ e. e ≡ Memory };

    fn from(_error: AllocError) -> PartFault {
        PartFault::Memory
    }
}

impl<T: Drop> From<AllocFailed<T>> for PartFault {
    ghost use Rattle.std.specs.Prelude.{◌≡◌};
    ghost use Rattle.mirror_core.specs.declared.fault.PartFault.TheVariants.{Memory};

    ghost from_gives = { λ _ e. e ≡ Memory };

    fn from(_error: AllocFailed<T>) -> PartFault {
        PartFault::Memory
    }
}

impl From<PartFault> for SyncFault {
    ghost use Rattle.std.specs.Prelude.{◌≡◌};
    ghost use Rattle.mirror_core.specs.Faults.{fault_of};

    ghost from_gives = { λ f e. e ≡ fault_of f };

    fn from(fault: PartFault) -> SyncFault {
        match fault {
            PartFault::TableFull => SyncFault::TableFull,
            PartFault::Memory => SyncFault::Memory,
        }
    }
}
