//! Addresses, as `HOST:PORT`.

ghost use Rattle.std.specs.Prelude.{◌≡◌, ◌≢◌, IfSome, IfNone, IfOk};
ghost use Rattle.mirror_settings.specs.declared.address.Address.{Address as AnAddress};
ghost use Rattle.mirror_settings.specs.Addresses.{IsAddress, spelled};

use id_text::parse_number;
use nostr_event::Text;
use std::alloc::{AllocError, Global};
use std::fmt;

/// Where a relay listens.
#[derive(Drop)]
pub struct Address {
    /// A name or a number. It isn't empty.
    pub host: Text,
    pub port: u16,
}

impl fmt::Display for Address {
    ghost use Rattle.std.specs.Prelude.{Some};

    ghost output = { λ a. Some (spelled a) };

    fn fmt<W: fmt::Write>(&self, f: &mut fmt::Formatter<W>) -> fmt::Result {
        let host = self.host.as_str();
        let port = self.port;
        write!(f, "{host}:{port}")
    }
}

/// The host and the port that a text spells as `HOST:PORT`: the port stands after the last colon, decimal, without sign or
/// leading zeros.
pub fn parts_of(text: &str) -> Option<(&str, u16)>
    ensures found { IfSome result (λ p. IsAddress (record { host = p.0.now; port = p.1 }) × (text.now ≡ spelled (record { host = p.0.now; port = p.1 }))) }
    ensures none { IfNone result ((a : AnAddress) → IsAddress a → text.now ≢ spelled a) }
{
    let Some((host, digits)) = text.rsplit_once(':') else {
        return None;
    };
    if host.is_empty() {
        return None;
    }
    match parse_number(digits.as_bytes()) {
        Some(port) if port < 65536 => Some((host, port as u16)),
        _ => None,
    }
}

/// The address that a text spells as `HOST:PORT`, if it spells one: the port stands after the last colon, decimal, without
/// sign or leading zeros.
pub fn read_address(alloc: Global, text: &str) -> Result<Option<Address>, AllocError>
    ensures found { IfOk result (λ o. IfSome o (λ a. IsAddress a × (text.now ≡ spelled a))) }
    ensures none { IfOk result (λ o. IfNone o ((a : AnAddress) → IsAddress a → text.now ≢ spelled a)) }
{
    match parts_of(text) {
        Some((host, port)) => {
            let host = Text::new(String::from_str(alloc, host)?);
            Ok(Some(Address { host, port }))
        }
        None => Ok(None),
    }
}
