//! Sets of relays.

ghost use Rattle.std.specs.Prelude.{◌≡◌, ◌<◌, ◌==◌, ◌||◌, ◌&&◌, ◌↔◌, IsTrue, not, ℕ, List, [], ◌∷◌, length, MatchOption};
ghost use Rattle.std.specs.List.{list_any};
ghost use Rattle.std.specs.Iterator.{at_most};
ghost use Rattle.std.specs.Map.Iter.{TakesFirst};
ghost use Rattle.sharing.specs.Sharing.{is_among};
ghost use Rattle.sharing.specs.Offers.{AreRelays};
ghost use Rattle.offer_table.specs.Groups.{set_cmp};
ghost use Rattle.offer_table.specs.Relays.{IsFirst};

use sharing::RELAYS;
use std::cmp::Ordering;
use std::iter::Iterator;
use std::marker::Model;

/// The first relay whose bit stands in the high word.
const HALF: u16 = 128;

/// A set of relays, each a number below [`RELAYS`].
#[derive(Clone, Copy)]
pub struct RelaySet {
    high: u128,
    low: u128,
}

impl Model for RelaySet {
    ghost use Rattle.std.specs.Prelude.{List, ℕ, ◌<◌, ◌^◌, ◌/◌, ◌%◌};
    ghost use Rattle.offer_table.specs.Relays.{members, bits_of, number};
    ghost use Rattle.offer_table.specs.RelayBits.{words_of};

    ghost Value = { List ℕ };

    ghost view = { λ s. members (number s.high s.low) };

    ghost invariant = { λ s. (s.high < 2 ^ 128) × (s.low < 2 ^ 128) };

    ghost inverse = { λ relays. record { high = bits_of relays / 2 ^ 128; low = bits_of relays % 2 ^ 128 } };

    ghost inverse_ok = { λ s small. words_of (λ high low. record { high = high; low = low }) s.high s.low small.0 small.1 };
}

impl RelaySet {
    /// The empty set.
    pub fn empty() -> RelaySet
        ensures { result ≡ [] }
    {
        RelaySet { high: 0, low: 0 }
    }

    /// The set of one relay.
    pub fn one(relay: u16) -> RelaySet
        requires { relay < RELAYS }
        ensures value { result ≡ relay ∷ [] }
        ensures relays { AreRelays result }
    {
        if relay < HALF {
            RelaySet {
                high: 0,
                low: 1 << relay,
            }
        } else {
            RelaySet {
                high: 1 << (relay - HALF),
                low: 0,
            }
        }
    }

    /// Whether this relay is a member. False for a number that is no relay.
    pub fn has(self, relay: u16) -> bool
        ensures value { result ≡ is_among self relay }
        ensures relays { AreRelays self }
    {
        if relay < HALF {
            (self.low >> relay) & 1 == 1
        } else {
            relay < RELAYS && (self.high >> (relay - HALF)) & 1 == 1
        }
    }

    /// The set with one more member, the number of a relay.
    pub fn with(self, relay: u16) -> RelaySet
        requires { relay < RELAYS }
        ensures member { (r : ℕ) → is_among result r ≡ ((r == relay) || is_among self r) }
        ensures relays { AreRelays result }
    {
        RelaySet::one(relay).union(self)
    }

    /// The members of both sets.
    pub fn union(self, other: RelaySet) -> RelaySet
        ensures member { (r : ℕ) → is_among result r ≡ (is_among self r || is_among other r) }
        ensures relays { AreRelays result }
    {
        RelaySet {
            high: self.high | other.high,
            low: self.low | other.low,
        }
    }

    /// The members of this set that the other lacks.
    pub fn minus(self, other: RelaySet) -> RelaySet
        ensures member { (r : ℕ) → is_among result r ≡ (is_among self r && not (is_among other r)) }
        ensures relays { AreRelays result }
    {
        RelaySet {
            high: self.high & !other.high,
            low: self.low & !other.low,
        }
    }

    /// Whether the set has no member.
    pub fn is_empty(self) -> bool
        ensures { IsTrue result ↔ (self ≡ []) }
    {
        self.high == 0 && self.low == 0
    }

    /// The number of members.
    pub fn len(self) -> usize
        ensures { result ≡ length self }
    {
        self.high.count_ones() as usize + self.low.count_ones() as usize
    }

    /// Whether some relay is a member of both sets.
    pub fn meets(self, other: RelaySet) -> bool
        ensures { result ≡ list_any (is_among other) self }
    {
        let mut rest = self;
        while let Some(parts) = rest.split_first() {
            if other.has(parts.0) {
                return true;
            }
            rest = parts.1;
        }
        false
    }

    /// The order of the sets, as numbers in which relay r counts 2^r.
    pub fn compare(self, other: RelaySet) -> Ordering
        ensures { result ≡ set_cmp self other }
    {
        match self.high.cmp(&other.high) {
            Ordering::Equal => self.low.cmp(&other.low),
            order => order,
        }
    }

    /// The bits of 64 relays, where relay r is bit r % 64 of the word r / 64.
    pub(crate) fn word(self, word: usize) -> u64 {
        let half = if word < 2 { self.low } else { self.high };
        if word % 2 == 0 {
            (half & u128::from(u64::MAX)) as u64
        } else {
            (half >> 64) as u64
        }
    }

    /// The least member.
    fn first(self) -> Option<u16>
        ensures { MatchOption result (self ≡ []) (λ r. IsFirst self r) }
    {
        if self.low != 0 {
            return Some(self.low.trailing_zeros() as u16);
        }
        if self.high != 0 {
            return Some(self.high.trailing_zeros() as u16 + HALF);
        }
        None
    }

    /// The least member, and the others.
    pub fn split_first(self) -> Option<(u16, RelaySet)>
        ensures { MatchOption result (self ≡ []) (λ p. self ≡ p.0 ∷ p.1) }
    {
        let relay = self.first()?;
        Some((relay, self.minus(RelaySet::one(relay))))
    }

    /// The members, ascending. A step for each of them.
    pub fn iter(self) -> Members
        ensures { result ≡ self }
    {
        Members { left: self }
    }
}

/// The members of a set that are left to walk over, ascending.
#[derive(Drop)]
pub struct Members {
    left: RelaySet,
}

impl Model for Members {
    ghost use Rattle.std.specs.Prelude.{List, ℕ};

    ghost Value = { List ℕ };

    ghost view = { λ m. m.left };
}

impl Iterator for Members {
    type Item = u16;

    ghost next_gives = { TakesFirst (λ r. r) };

    ghost remaining = { λ s. at_most (length s) };

    fn next(&mut self) -> Option<u16> {
        let (first, others) = self.left.split_first()?;
        self.left = others;
        Some(first)
    }
}
