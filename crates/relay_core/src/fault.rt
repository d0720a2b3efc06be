//! Why a call on a connection was refused.

use event_store::PinFault;
use std::alloc::{AllocError, AllocFailed};
use thiserror::Error;

/// Why a call on a connection was refused. Each later call on it is `Closed`.
#[derive(Clone, Copy, Debug, PartialEq, Eq, Error)]
pub enum ConnFault {
    /// The store is gone.
    #[error("the store is gone")]
    Gone,
    /// A growth was refused.
    #[error("out of memory")]
    Memory,
    /// A call before was refused.
    #[error("the connection is closed")]
    Closed,
}

/// Why an open connection's call broke off.
#[derive(Clone, Copy)]
pub enum Broken {
    Gone,
    Memory,
}

impl From<AllocError> for Broken {
    ghost use Rattle.std.specs.Prelude.{◌≡◌};
    ghost use Rattle.relay_core.specs.declared.fault.Broken.TheVariants.{Memory};

    ghost from_gives = { λ _ e. e ≡ Memory };

    fn from(_error: AllocError) -> Broken {
        Broken::Memory
    }
}

impl<T: Drop> From<AllocFailed<T>> for Broken {
    ghost use Rattle.std.specs.Prelude.{◌≡◌};
    ghost use Rattle.relay_core.specs.declared.fault.Broken.TheVariants.{Memory};

    ghost from_gives = { λ _ e. e ≡ Memory };

    fn from(_error: AllocFailed<T>) -> Broken {
        Broken::Memory
    }
}

impl From<PinFault> for Broken {
    ghost use Rattle.std.specs.Prelude.{◌≡◌};
    ghost use Rattle.relay_core.specs.Faults.{broken_by};

    ghost from_gives = { λ f e. e ≡ broken_by f };

    fn from(fault: PinFault) -> Broken {
        match fault {
            PinFault::Gone => Broken::Gone,
            PinFault::Memory => Broken::Memory,
        }
    }
}

impl From<Broken> for ConnFault {
    ghost use Rattle.std.specs.Prelude.{◌≡◌, ◌≢◌};
    ghost use Rattle.relay_core.specs.declared.fault.ConnFault.TheVariants.{Closed};
    ghost use Rattle.relay_core.specs.Faults.{told_as};

    ghost from_gives = { λ b e. (e ≡ told_as b) × (e ≢ Closed) };

    fn from(broken: Broken) -> ConnFault {
        match broken {
            Broken::Gone => ConnFault::Gone,
            Broken::Memory => ConnFault::Memory,
        }
    }
}
