//! Why a file's lines weren't all put into the store.

use std::alloc::{AllocError, AllocFailed};

/// Why a file's lines weren't all put into the store.
#[derive(Clone, Copy)]
pub enum FileFault {
    /// The first line that isn't UTF-8, holds no event, or has one more than the store takes, counted from 1.
    Line(usize),
    /// No memory was found.
    Memory,
}

/// Why a line wasn't put into the store.
#[derive(Clone, Copy)]
pub(crate) enum LineFault {
    /// It isn't UTF-8, holds no event, or has one more than the store takes.
    Wrong,
    Memory,
}

impl From<AllocError> for LineFault {
    ghost use Rattle.std.specs.Prelude.{◌≡◌};
    ghost use Rattle.event_file.specs.declared.fault.LineFault.TheVariants.{Memory};

    ghost from_gives = { λ _ e. e ≡ Memory };

    fn from(_error: AllocError) -> LineFault {
        LineFault::Memory
    }
}

impl<T: Drop> From<AllocFailed<T>> for LineFault {
    ghost use Rattle.std.specs.Prelude.{◌≡◌};
    ghost use Rattle.event_file.specs.declared.fault.LineFault.TheVariants.{Memory};

    ghost from_gives = { λ _ e. e ≡ Memory };

    fn from(_error: AllocFailed<T>) -> LineFault {
        LineFault::Memory
    }
}
