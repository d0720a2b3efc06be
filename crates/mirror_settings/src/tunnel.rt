//! Relays behind a tunnel, as tables: `{ host = "relay.example.com", path = "/", via = "127.0.0.1:7001" }`.

ghost use Rattle.std.specs.Prelude.{◌≡◌, ◌≢◌, List, ℕ, Some, codes, IfSome, IfNone, IfOk};
ghost use Rattle.std.specs.Bool.{Decides};
ghost use Rattle.toml.specs.Data.{get_member, string};
ghost use Rattle.toml.specs.View.{table_view};
ghost use Rattle.mirror_settings.specs.declared.address.Address.{Address as AnAddress};
ghost use Rattle.mirror_settings.specs.declared.relay.Relay.{Relay as ARelay};
ghost use Rattle.mirror_settings.specs.Relays.{IsNamed, IsAsked, HasHost, HasPath, HasVia, IsTunnelled};

use crate::address::{Address, read_address};
use crate::relay::Relay;
use crate::url::{authority_of, is_graphic};
use nostr_event::Text;
use std::alloc::{AllocError, Global};
use toml::Table;

/// The text at a key of a table.
fn text_at<'a>(table: &'a Table, key: &str) -> Option<&'a str>
    ensures found { IfSome result (λ t. get_member key.now (table_view table.now) ≡ Some (string t.now)) }
    ensures none { IfNone result ((t : List ℕ) → get_member key.now (table_view table.now) ≢ Some (string t)) }
{
    match table.get(key) {
        Some(value) => value.as_str(),
        None => None,
    }
}

/// Whether the handshake may name it as its host.
fn is_named(host: &str) -> bool
    ensures { Decides result (IsNamed host.now) }
{
    if !is_graphic(host) || host.contains('/') {
        return false;
    }
    authority_of(host).is_some()
}

/// Whether the handshake may ask for it.
fn is_asked(path: &str) -> bool
    ensures { Decides result (IsAsked path.now) }
{
    is_graphic(path) && path.starts_with('/')
}

/// The host that a table names.
fn host_in<'a>(table: &'a Table) -> Option<&'a str>
    ensures found { IfSome result (λ h. HasHost (table_view table.now) h.now) }
    ensures none { IfNone result ((h : List ℕ) → ¬ HasHost (table_view table.now) h) }
{
    let Some(host) = text_at(table, "host") else {
        return None;
    };
    if is_named(host) { Some(host) } else { None }
}

/// The path that a table names, or `/` where it names none.
fn path_in<'a>(table: &'a Table) -> Option<&'a str>
    ensures found { IfSome result (λ p. HasPath (table_view table.now) p.now) }
    ensures none { IfNone result ((p : List ℕ) → ¬ HasPath (table_view table.now) p) }
{
    let Some(value) = table.get("path") else {
        return Some("/");
    };
    let Some(path) = value.as_str() else {
        return None;
    };
    if is_asked(path) { Some(path) } else { None }
}

/// Where a table says to connect to.
fn via_in(alloc: Global, table: &Table) -> Result<Option<Address>, AllocError>
    ensures found { IfOk result (λ o. IfSome o (HasVia (table_view table.now))) }
    ensures none { IfOk result (λ o. IfNone o ((a : AnAddress) → ¬ HasVia (table_view table.now) a)) }
{
    match text_at(table, "via") {
        Some(text) => read_address(alloc, text),
        None => Ok(None),
    }
}

/// The relay that a table names, if it does.
pub fn table_relay(alloc: Global, table: &Table) -> Result<Option<Relay>, AllocError>
    ensures found { IfOk result (λ o. IfSome o (IsTunnelled (table_view table.now))) }
    ensures none { IfOk result (λ o. IfNone o ((r : ARelay) → ¬ IsTunnelled (table_view table.now) r)) }
{
    let Some(host) = host_in(table) else {
        return Ok(None);
    };
    let Some(path) = path_in(table) else {
        return Ok(None);
    };
    let Some(via) = via_in(alloc, table)? else {
        return Ok(None);
    };
    let host = Text::new(String::from_str(alloc, host)?);
    let path = Text::new(String::from_str(alloc, path)?);
    Ok(Some(Relay { host, path, via }))
}
