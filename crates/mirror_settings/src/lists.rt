//! Lists of the settings, which contracts see as lists.

ghost use Rattle.std.specs.Prelude.{◌≡◌};

use crate::relay::Relay;
use std::marker::Model;

/// Relays to synchronise with, seen as their list.
#[derive(Drop)]
pub struct Relays {
    relays: Vec<Relay>,
}

impl Model for Relays {
    ghost use Rattle.std.specs.Prelude.{List};
    ghost use Rattle.mirror_settings.specs.declared.relay.Relay.{Relay};

    ghost Value = { List Relay };

    ghost view = { λ l. l.relays.items };
}

impl Relays {
    pub fn new(relays: Vec<Relay>) -> Relays
        ensures { result ≡ relays.items }
    {
        Relays { relays }
    }

    pub fn as_slice(&self) -> &[Relay]
        ensures { result.now ≡ self.now }
    {
        self.relays.as_slice()
    }

    /// Gives the relays back.
    pub fn into_vec(self) -> Vec<Relay>
        ensures { result.items ≡ self }
    {
        self.relays
    }
}

/// Loads of relays in the relays' order, seen as their list.
#[derive(Drop)]
pub struct Loads {
    loads: Vec<u64>,
}

impl Model for Loads {
    ghost use Rattle.std.specs.Prelude.{List, ℕ};

    ghost Value = { List ℕ };

    ghost view = { λ l. l.loads.items };
}

impl Loads {
    pub fn new(loads: Vec<u64>) -> Loads
        ensures { result ≡ loads.items }
    {
        Loads { loads }
    }

    pub fn as_slice(&self) -> &[u64]
        ensures { result.now ≡ self.now }
    {
        self.loads.as_slice()
    }

    /// Gives the loads back.
    pub fn into_vec(self) -> Vec<u64>
        ensures { result.items ≡ self }
    {
        self.loads
    }
}
