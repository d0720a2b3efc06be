//! Values of a TOML table, in the forms that the settings want.

ghost use Rattle.std.specs.Prelude.{◌≡◌, ℕ, Bool, List, Option, IfSome, IfNone, IfOk, IfErr, option_map, map, All, replicate};
ghost use Rattle.toml.specs.View.{view, table_view};
ghost use Rattle.serde_json.specs.Read.{read as read_text};
ghost use Rattle.serde_json.specs.View.{view as json_view};
ghost use Rattle.nostr_filter.specs.declared.filter.Filter.{Filter as AFilter};
ghost use Rattle.mirror_settings.specs.declared.address.Address.{Address as AnAddress};
ghost use Rattle.mirror_settings.specs.declared.relay.Relay.{Relay as ARelay};
ghost use Rattle.mirror_settings.specs.declared.settings.Syncing.{Syncing as ASyncing};
ghost use Rattle.mirror_settings.specs.Relays.{IsRelay, IsRelayText, AreRelays};
ghost use Rattle.mirror_settings.specs.Settings.{at, Fails, Holds, HoldsOr, IsWhole, IsFlag, IsLoad, whole_data, IsAddressData, IsFilterData, IsSyncing};

use crate::address::{Address, read_address};
use crate::fault::{SettingsFault, SettingsKey};
use crate::lists::{Loads, Relays};
use crate::relay::{Relay, plain_relay};
use crate::settings::Syncing;
use crate::tunnel::table_relay;
use crate::url::url_relay;
use nostr_filter::{Filter, FilterFault};
use serde_json::Value as Json;
use std::alloc::{AllocError, Global};
use toml::{Table, Value};

/// The value at a key.
pub fn value_at<'a>(table: &'a Table, key: SettingsKey) -> Option<&'a Value>
    ensures { option_map (λ v. view v.now) result ≡ at key (table_view table.now) }
{
    table.get(key.name())
}

/// The whole number of a range that a value is.
pub fn whole_in(value: &Value, least: u64, most: u64) -> Option<u64>
    ensures found { IfSome result (IsWhole least most (view value.now)) }
    ensures none { IfNone result ((n : ℕ) → ¬ IsWhole least most (view value.now) n) }
{
    match value.as_integer() {
        Some(number) if number >= 0 => {
            let whole = number as u64;
            if least <= whole && whole <= most {
                Some(whole)
            } else {
                None
            }
        }
        _ => None,
    }
}

/// The whole number of a range at a key, if the key is there.
pub fn whole_at(
    table: &Table,
    key: SettingsKey,
    least: u64,
    most: u64,
) -> Result<Option<u64>, SettingsFault>
    ensures ok { IfOk result (Holds (IsWhole least most) (at key (table_view table.now))) }
    ensures err { IfErr result (λ e. (e ≡ SettingsFault.Key key) × ((v : Option ℕ) → ¬ Holds (IsWhole least most) (at key (table_view table.now)) v)) }
{
    let Some(value) = value_at(table, key) else {
        return Ok(None);
    };
    match whole_in(value, least, most) {
        Some(whole) => Ok(Some(whole)),
        None => Err(SettingsFault::Key(key)),
    }
}

/// The whole number of a range at a key, or this one where the key isn't there.
pub fn whole_or(
    table: &Table,
    key: SettingsKey,
    least: u64,
    most: u64,
    default: u64,
) -> Result<u64, SettingsFault>
    ensures ok { IfOk result (HoldsOr default (IsWhole least most) (at key (table_view table.now))) }
    ensures err { IfErr result (λ e. (e ≡ SettingsFault.Key key) × ((n : ℕ) → ¬ HoldsOr default (IsWhole least most) (at key (table_view table.now)) n)) }
{
    let Some(value) = value_at(table, key) else {
        return Ok(default);
    };
    match whole_in(value, least, most) {
        Some(whole) => Ok(whole),
        None => Err(SettingsFault::Key(key)),
    }
}

/// What is said at a key, yes or no, or this where the key isn't there.
pub fn flag_at(table: &Table, key: SettingsKey, default: bool) -> Result<bool, SettingsFault>
    ensures ok { IfOk result (HoldsOr default IsFlag (at key (table_view table.now))) }
    ensures err { IfErr result (λ e. (e ≡ SettingsFault.Key key) × ((b : Bool) → ¬ HoldsOr default IsFlag (at key (table_view table.now)) b)) }
{
    let Some(value) = value_at(table, key) else {
        return Ok(default);
    };
    match value.as_bool() {
        Some(flag) => Ok(flag),
        None => Err(SettingsFault::Key(key)),
    }
}

/// When lines are synced, as a value says.
pub fn syncing_in(value: &Value) -> Option<Syncing>
    ensures found { IfSome result (IsSyncing (view value.now)) }
    ensures none { IfNone result ((s : ASyncing) → ¬ IsSyncing (view value.now) s) }
{
    let text = value.as_str()?;
    if text == "always" {
        Some(Syncing::Always)
    } else if text == "everysec" {
        Some(Syncing::EverySecond)
    } else if text == "no" {
        Some(Syncing::Never)
    } else {
        None
    }
}

/// The address that a value spells.
pub fn address_in(alloc: Global, value: &Value, key: SettingsKey) -> Result<Address, SettingsFault>
    ensures ok { IfOk result (IsAddressData (view value.now)) }
    ensures err { IfErr result (Fails key ((a : AnAddress) → ¬ IsAddressData (view value.now) a)) }
{
    let Some(text) = value.as_str() else {
        return Err(SettingsFault::Key(key));
    };
    match read_address(alloc, text)? {
        Some(address) => Ok(address),
        None => Err(SettingsFault::Key(key)),
    }
}

/// The relay that a text names, if it names one.
fn relay_in_text(alloc: Global, text: &str) -> Result<Option<Relay>, AllocError>
    ensures found { IfOk result (λ o. IfSome o (IsRelayText text.now)) }
    ensures none { IfOk result (λ o. IfNone o ((r : ARelay) → ¬ IsRelayText text.now r)) }
{
    if text.contains("://") {
        url_relay(alloc, text)
    } else {
        plain_relay(alloc, text)
    }
}

/// The relay that an entry names, if it names one: a text, or a table.
fn named_by(alloc: Global, value: &Value) -> Result<Option<Relay>, AllocError>
    ensures found { IfOk result (λ o. IfSome o (IsRelay (view value.now))) }
    ensures none { IfOk result (λ o. IfNone o ((r : ARelay) → ¬ IsRelay (view value.now) r)) }
{
    match value {
        Value::String(text) => relay_in_text(alloc, text.as_str()),
        Value::Table(table) => table_relay(alloc, table),
        _ => Ok(None),
    }
}

/// The relay that an entry names.
fn relay_in(alloc: Global, value: &Value) -> Result<Relay, SettingsFault>
    ensures ok { IfOk result (IsRelay (view value.now)) }
    ensures err { IfErr result (Fails SettingsKey.Relays ((r : ARelay) → ¬ IsRelay (view value.now) r)) }
{
    match named_by(alloc, value)? {
        Some(relay) => Ok(relay),
        None => Err(SettingsFault::Key(SettingsKey::Relays)),
    }
}

/// The relays that entries name.
pub fn relays_in(alloc: Global, values: &[Value]) -> Result<Relays, SettingsFault>
    ensures ok { IfOk result (AreRelays (map view values.now)) }
    ensures err { IfErr result (Fails SettingsKey.Relays ((l : List ARelay) → ¬ AreRelays (map view values.now) l)) }
{
    let mut relays = Vec::new(alloc);
    for value in values {
        let relay = relay_in(alloc, value)?;
        relays.push(relay)?;
    }
    Ok(Relays::new(relays))
}

/// The loads that values are.
pub fn loads_in(alloc: Global, values: &[Value]) -> Result<Loads, SettingsFault>
    ensures ok { IfOk result (λ l. (map view values.now ≡ map whole_data l) × All IsLoad l) }
    ensures err { IfErr result (Fails SettingsKey.Bases ((l : List ℕ) → All IsLoad l → ¬ (map view values.now ≡ map whole_data l))) }
{
    let mut loads = Vec::new(alloc);
    for value in values {
        let Some(load) = whole_in(value, 0, 1_000_000_000) else {
            return Err(SettingsFault::Key(SettingsKey::Bases));
        };
        loads.push(load)?;
    }
    Ok(Loads::new(loads))
}

/// So many loads of 0.
pub fn no_loads(alloc: Global, count: usize) -> Result<Loads, SettingsFault>
    ensures ok { IfOk result (λ l. l ≡ replicate count 0) }
    ensures err { IfErr result (λ e. e ≡ SettingsFault.Memory) }
{
    let mut loads = Vec::new(alloc);
    for _ in 0..count {
        loads.push(0)?;
    }
    Ok(Loads::new(loads))
}

/// The JSON value that a text is.
fn json_of(alloc: Global, text: &str) -> Result<Json, SettingsFault>
    ensures ok { IfOk result (λ v. read_text text.now ≡ Some (json_view v)) }
    ensures err { IfErr result (Fails SettingsKey.Filter (read_text text.now ≡ None)) }
{
    match Json::from_str(alloc, text) {
        Ok(value) => Ok(value),
        Err(error) => Err(if error.is_memory() {
            SettingsFault::Memory
        } else {
            SettingsFault::Key(SettingsKey::Filter)
        }),
    }
}

/// The filter that a value's text is.
pub fn filter_in(alloc: Global, value: &Value) -> Result<Filter, SettingsFault>
    ensures ok { IfOk result (IsFilterData (view value.now)) }
    ensures err { IfErr result (Fails SettingsKey.Filter ((f : AFilter) → ¬ IsFilterData (view value.now) f)) }
{
    let Some(text) = value.as_str() else {
        return Err(SettingsFault::Key(SettingsKey::Filter));
    };
    let json = json_of(alloc, text)?;
    match Filter::from_json(alloc, &json) {
        Ok(filter) => Ok(filter),
        Err(FilterFault::Memory) => Err(SettingsFault::Memory),
        Err(_) => Err(SettingsFault::Key(SettingsKey::Filter)),
    }
}
