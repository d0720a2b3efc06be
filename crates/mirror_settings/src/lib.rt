//! The program's settings: what they have to be, and how they are read from TOML text.
#![tactic(auto)]

mod address;
mod fault;
mod job;
mod lists;
mod reading;
mod relay;
mod settings;
mod tunnel;
mod unknown;
mod url;
mod values;

pub use address::{Address, read_address};
pub use fault::{SettingsFault, SettingsKey};
pub use job::Job;
pub use lists::{Loads, Relays};
pub use reading::read_settings;
pub use relay::Relay;
pub use settings::{Mirroring, Settings, Syncing};
pub use unknown::unknown_keys;
