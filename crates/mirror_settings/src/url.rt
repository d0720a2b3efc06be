//! Relays as URLs: `ws://HOST/PATH` and `ws://HOST:PORT/PATH`.

ghost use Rattle.std.specs.Prelude.{◌≡◌, ◌∷◌, All, IfSome, IfNone, IfOk};
ghost use Rattle.std.specs.Bool.{Decides};
ghost use Rattle.mirror_settings.specs.declared.address.Address.{Address as AnAddress};
ghost use Rattle.mirror_settings.specs.declared.relay.Relay.{Relay as ARelay};
ghost use Rattle.mirror_settings.specs.Relays.{IsAuthority, IsBracketed, IsGraphic, IsHost, IsUrl};

use crate::address::{Address, parts_of};
use crate::relay::Relay;
use nostr_event::Text;
use std::alloc::{AllocError, Global};

/// The port of a URL that gives none.
const PORT: u16 = 80;

/// Whether a text has neither blanks nor control characters.
pub fn is_graphic(text: &str) -> bool
    ensures { Decides result (All IsGraphic text.now) }
{
    let bytes = text.as_bytes();
    for byte in bytes {
        if *byte < 33 || *byte == 127 {
            return false;
        }
    }
    true
}

fn is_bracketed(host: &str) -> bool
    ensures { Decides result (IsBracketed host.now) }
{
    match host.strip_prefix('[') {
        Some(rest) => rest.ends_with(']'),
        None => false,
    }
}

fn is_host(host: &str) -> bool
    ensures { Decides result (IsHost host.now) }
{
    if host.is_empty() {
        return false;
    }
    if host.contains(':') {
        is_bracketed(host)
    } else {
        true
    }
}

/// The host and the port that a text names as `HOST:PORT` or as `HOST`.
pub fn authority_of(text: &str) -> Option<(&str, u16)>
    ensures found { IfSome result (λ p. IsAuthority text.now (record { host = p.0.now; port = p.1 })) }
    ensures none { IfNone result ((a : AnAddress) → ¬ IsAuthority text.now a) }
{
    if is_host(text) {
        return Some((text, PORT));
    }
    let Some((host, port)) = parts_of(text) else {
        return None;
    };
    if is_host(host) {
        Some((host, port))
    } else {
        None
    }
}

/// The relay with this host, with or without a port, and with a slash and this as its path.
fn relay_of(alloc: Global, host: &str, after: &str) -> Result<Option<Relay>, AllocError>
    ensures found { IfOk result (λ o. IfSome o (λ r. IsAuthority host.now r.via × (r.host ≡ host.now) × (r.path ≡ 47 ∷ after.now))) }
    ensures none { IfOk result (λ o. IfNone o ((a : AnAddress) → ¬ IsAuthority host.now a)) }
{
    let Some((name, port)) = authority_of(host) else {
        return Ok(None);
    };
    let via = Address {
        host: Text::new(String::from_str(alloc, name)?),
        port,
    };
    let mut path = String::from_str(alloc, "/")?;
    path.push_str(after)?;
    let host = Text::new(String::from_str(alloc, host)?);
    let path = Text::new(path);
    Ok(Some(Relay { host, path, via }))
}

/// The relay that a text names by a URL, if it does.
pub fn url_relay(alloc: Global, text: &str) -> Result<Option<Relay>, AllocError>
    ensures found { IfOk result (λ o. IfSome o (IsUrl text.now)) }
    ensures none { IfOk result (λ o. IfNone o ((r : ARelay) → ¬ IsUrl text.now r)) }
{
    let Some(rest) = text.strip_prefix("ws://") else {
        return Ok(None);
    };
    if !is_graphic(text) {
        return Ok(None);
    }
    match rest.split_once('/') {
        Some((host, after)) => relay_of(alloc, host, after),
        None => relay_of(alloc, rest, ""),
    }
}
