//! Keys that are no settings.

use crate::fault::{SettingsFault, SettingsKey};
use nostr_event::Text;
use std::alloc::Global;

/// All keys of settings.
const KEYS: [SettingsKey; 18] = [
    SettingsKey::Events,
    SettingsKey::Listen,
    SettingsKey::Conns,
    SettingsKey::Relays,
    SettingsKey::Filter,
    SettingsKey::Workers,
    SettingsKey::Bases,
    SettingsKey::Rounds,
    SettingsKey::PushMs,
    SettingsKey::TimeoutMs,
    SettingsKey::Fsync,
    SettingsKey::SlowBytes,
    SettingsKey::Clients,
    SettingsKey::PingMs,
    SettingsKey::ReadOnly,
    SettingsKey::EveryMs,
    SettingsKey::Passes,
    SettingsKey::Live,
];

/// Whether a setting has the name.
fn is_known(name: &str) -> bool {
    for key in KEYS {
        if key.name() == name {
            return true;
        }
    }
    false
}

/// The keys at the top of a TOML text that are no settings, in the order of their bytes.
pub fn unknown_keys(alloc: Global, text: &str) -> Result<Vec<Text>, SettingsFault> {
    let table = match toml::table_from_str(alloc, text) {
        Ok(table) => table,
        Err(error) => {
            return Err(if error.is_memory() {
                SettingsFault::Memory
            } else {
                SettingsFault::Text
            });
        }
    };
    let mut unknown = Vec::new(alloc);
    for name in table.keys() {
        if !is_known(name.as_str()) {
            unknown.push(Text::new(String::from_str(alloc, name.as_str())?))?;
        }
    }
    Ok(unknown)
}
