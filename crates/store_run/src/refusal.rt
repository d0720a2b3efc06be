//! Why the job wasn't done.

ghost use Rattle.std.specs.Prelude.{◌≡◌};
ghost use Rattle.store_run.specs.declared.refusal.Refusal.TheVariants.{Memory as memory};

use event_store::{PinFault, StoreFault};
use mirror_settings::{SettingsFault, SettingsKey};
use std::alloc::{AllocError, AllocFailed};
use std::{fmt, io};

/// Why the job wasn't done. Its text follows `refused: `.
#[derive(Clone, Copy)]
pub enum Refusal {
    /// A read failed.
    Read,
    /// A write failed.
    Write,
    /// The settings aren't TOML.
    Settings,
    /// The first key of the settings that is missing or wrong.
    Key(SettingsKey),
    /// The line of the events file that isn't UTF-8, holds no event, or has one more than the store takes, counted from 1.
    File(usize),
    /// Another run has begun a file that is to take the place of the events file.
    Busy,
    /// The address can't be listened on.
    Listen,
    /// No store could be opened, or nothing be pinned.
    Store,
    /// More ids are offered than a table takes. `sync` alone tells it.
    TableFull,
    /// Want of memory.
    Memory,
}

impl fmt::Display for Refusal {
    ghost use Rattle.std.specs.Prelude.{Some};
    ghost use Rattle.store_run.specs.RefusalText.{refusal_text};

    ghost output = { λ r. Some (refusal_text r) };

    fn fmt<W: fmt::Write>(&self, f: &mut fmt::Formatter<W>) -> fmt::Result {
        match self {
            Refusal::Read => write!(f, "read"),
            Refusal::Write => write!(f, "write"),
            Refusal::Settings => write!(f, "settings"),
            Refusal::Key(key) => write!(f, "settings {key}"),
            Refusal::File(line) => write!(f, "file line {line}"),
            Refusal::Busy => write!(f, "events busy"),
            Refusal::Listen => write!(f, "listen"),
            Refusal::Store => write!(f, "store"),
            Refusal::TableFull => write!(f, "table full"),
            Refusal::Memory => write!(f, "memory"),
        }
    }
}

impl From<AllocError> for Refusal {
    ghost from_gives = { λ _ e. e ≡ memory };

    fn from(_error: AllocError) -> Refusal {
        Refusal::Memory
    }
}

impl<T: Drop> From<AllocFailed<T>> for Refusal {
    ghost from_gives = { λ _ e. e ≡ memory };

    fn from(_error: AllocFailed<T>) -> Refusal {
        Refusal::Memory
    }
}

impl From<SettingsFault> for Refusal {
    fn from(fault: SettingsFault) -> Refusal {
        match fault {
            SettingsFault::Text => Refusal::Settings,
            SettingsFault::Key(key) => Refusal::Key(key),
            SettingsFault::Memory => Refusal::Memory,
        }
    }
}

impl From<StoreFault> for Refusal {
    fn from(fault: StoreFault) -> Refusal {
        match fault {
            StoreFault::Memory => Refusal::Memory,
            StoreFault::Readers | StoreFault::Place => Refusal::Store,
        }
    }
}

impl From<PinFault> for Refusal {
    fn from(fault: PinFault) -> Refusal {
        match fault {
            PinFault::Gone => Refusal::Store,
            PinFault::Memory => Refusal::Memory,
        }
    }
}

/// What an error of reading comes to.
pub fn read_refusal(error: &io::Error) -> Refusal {
    if error.kind() == io::ErrorKind::OutOfMemory {
        Refusal::Memory
    } else {
        Refusal::Read
    }
}

/// What an error of writing comes to.
pub fn write_refusal(error: &io::Error) -> Refusal {
    if error.kind() == io::ErrorKind::OutOfMemory {
        Refusal::Memory
    } else {
        Refusal::Write
    }
}
