//! Relays, and how the settings name them.

ghost use Rattle.std.specs.Prelude.{IfSome, IfNone, IfOk};
ghost use Rattle.mirror_settings.specs.declared.relay.Relay.{Relay as ARelay};
ghost use Rattle.mirror_settings.specs.Relays.{IsPlain};

use crate::address::{Address, read_address};
use nostr_event::Text;
use std::alloc::{AllocError, Global};

/// A relay to synchronise with.
pub struct Relay {
    /// What the WebSocket handshake names as its host: `HOST` or `HOST:PORT`.
    pub host: Text,
    /// What the handshake asks for. It begins with `/`.
    pub path: Text,
    /// Where to connect to.
    pub via: Address,
}

// By hand, as a derived one is proved anew wherever a value is dropped.
impl Drop for Relay {
    fn drop(self) {
        let Self {
            host: _,
            path: _,
            via: _,
        } = self;
    }
}

/// The relay that a text names as `HOST:PORT`, if it does.
pub fn plain_relay(alloc: Global, text: &str) -> Result<Option<Relay>, AllocError>
    ensures found { IfOk result (λ o. IfSome o (IsPlain text.now)) }
    ensures none { IfOk result (λ o. IfNone o ((r : ARelay) → ¬ IsPlain text.now r)) }
{
    let Some(via) = read_address(alloc, text)? else {
        return Ok(None);
    };
    let host = Text::new(String::from_str(alloc, text)?);
    let path = Text::new(String::from_str(alloc, "/")?);
    Ok(Some(Relay { host, path, via }))
}
