//! Why a text holds no settings.

ghost use Rattle.std.specs.Prelude.{◌≡◌};

use std::alloc::{AllocError, AllocFailed};
use std::fmt;

/// A key of the settings, in the order in which they are looked at.
#[derive(Clone, Copy, PartialEq, Eq)]
pub enum SettingsKey {
    Events,
    Listen,
    Conns,
    Relays,
    Filter,
    Workers,
    Bases,
    Rounds,
    PushMs,
    TimeoutMs,
    Fsync,
    SlowBytes,
    Clients,
    PingMs,
    ReadOnly,
    EveryMs,
    Passes,
    Live,
}

impl SettingsKey {
    ghost use Rattle.mirror_settings.specs.Keys.{name_of};

    /// Its name in the text.
    pub fn name(self) -> &'static str
        ensures { result.now ≡ name_of self }
    {
        match self {
            SettingsKey::Events => "events",
            SettingsKey::Listen => "listen",
            SettingsKey::Conns => "conns",
            SettingsKey::Relays => "relays",
            SettingsKey::Filter => "filter",
            SettingsKey::Workers => "workers",
            SettingsKey::Bases => "bases",
            SettingsKey::Rounds => "rounds",
            SettingsKey::PushMs => "push_ms",
            SettingsKey::TimeoutMs => "timeout_ms",
            SettingsKey::Fsync => "fsync",
            SettingsKey::SlowBytes => "slow_bytes",
            SettingsKey::Clients => "clients",
            SettingsKey::PingMs => "ping_ms",
            SettingsKey::ReadOnly => "read_only",
            SettingsKey::EveryMs => "every_ms",
            SettingsKey::Passes => "passes",
            SettingsKey::Live => "live",
        }
    }
}

impl fmt::Display for SettingsKey {
    ghost use Rattle.std.specs.Prelude.{Some};
    ghost use Rattle.mirror_settings.specs.Keys.{name_of};

    ghost output = { λ k. Some (name_of k) };

    fn fmt<W: fmt::Write>(&self, f: &mut fmt::Formatter<W>) -> fmt::Result {
        let name = self.name();
        write!(f, "{name}")
    }
}

/// Why a text holds no settings. Of several faults the first of these is told.
#[derive(Clone, Copy, PartialEq, Eq)]
pub enum SettingsFault {
    /// It is no TOML document.
    Text,
    /// The first key that is missing where it is needed, or whose value is wrong.
    Key(SettingsKey),
    /// There was no memory.
    Memory,
}

impl From<AllocError> for SettingsFault {
    ghost use Rattle.mirror_settings.specs.declared.fault.SettingsFault.TheVariants.{Memory};

    ghost from_gives = { λ _ e. e ≡ Memory };

    fn from(_error: AllocError) -> SettingsFault {
        SettingsFault::Memory
    }
}

impl<T: Drop> From<AllocFailed<T>> for SettingsFault {
    ghost use Rattle.mirror_settings.specs.declared.fault.SettingsFault.TheVariants.{Memory};

    ghost from_gives = { λ _ e. e ≡ Memory };

    fn from(_error: AllocFailed<T>) -> SettingsFault {
        SettingsFault::Memory
    }
}
