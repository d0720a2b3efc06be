//! What the relays' loads begin with.

ghost use Rattle.std.specs.Prelude.{◌≡◌, ◌==◌, ◌↔◌, ℕ, IsTrue, IsOk, OnOk, OnErr, MatchOption, Err, if◌then◌else◌};
ghost use Rattle.sharing.specs.Bases.{base_of, AreBases};
ghost use Rattle.offer_table.specs.Faults.{base_fault};

use crate::BaseFault;
use sharing::{MOST_BASE, RELAYS, SLOTS};
use std::marker::Model;

/// What each relay's load begins with.
#[derive(Clone, Copy)]
pub struct Bases {
    loads: [u64; SLOTS],
}

impl Model for Bases {
    ghost use Rattle.std.specs.Prelude.{List, ℕ, refl};
    ghost use Rattle.sharing.specs.Bases.{AreBases};

    ghost Value = { List ℕ };

    ghost view = { λ b. b.loads };

    ghost invariant = { λ b. AreBases b.loads };

    ghost inverse = { λ loads. record { loads = loads } };

    ghost inverse_ok = { λ b _. refl };
}

impl Bases {
    /// Each load begins at 0.
    pub fn none() -> Bases
        ensures none { (r : ℕ) → base_of result r ≡ 0 }
        ensures bases { AreBases result }
    {
        Bases { loads: [0; SLOTS] }
    }

    /// Says what a relay's load begins with.
    ///
    /// # Errors
    ///
    /// `Relay` for a number that is no relay, else `Load` above [`sharing::MOST_BASE`].
    pub fn set(&mut self, relay: u16, load: u64) -> Result<(), BaseFault>
        ensures fault { MatchOption (base_fault relay load) (IsOk result) (λ f. result ≡ Err f) }
        ensures ok { OnOk result ((r : ℕ) → base_of self.new r ≡ (if r == relay then load else base_of self.old r)) }
        ensures err { OnErr result (self.new ≡ self.old) }
        ensures bases { AreBases self.new }
    {
        let _ = &self.loads;
        if relay >= RELAYS {
            return Err(BaseFault::Relay);
        }
        if load > MOST_BASE {
            return Err(BaseFault::Load);
        }
        self.loads[usize::from(relay)] = load;
        Ok(())
    }

    /// What this relay's load begins with: 0 for a number that is no relay.
    pub fn of(&self, relay: u16) -> u64
        ensures value { result ≡ base_of self.now relay }
        ensures bases { AreBases self.now }
    {
        if relay < RELAYS {
            self.loads[usize::from(relay)]
        } else {
            0
        }
    }

    /// Whether each load begins at 0.
    pub fn are_none(&self) -> bool
        ensures { IsTrue result ↔ ((r : ℕ) → base_of self.now r ≡ 0) }
    {
        for relay in 0..SLOTS {
            if self.loads[relay] != 0 {
                return false;
            }
        }
        true
    }
}
