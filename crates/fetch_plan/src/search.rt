//! The search for chains: which relays they reach from the busiest ones, and the way back.

ghost use Rattle.std.specs.Prelude.{◌≡◌, ◌≤◌, ◌<◌, ◌+◌, true, false, ℕ, List, length, slice_index_or, IfSome, IfNone};
ghost use Rattle.sharing.specs.Sharing.{is_among};
ghost use Rattle.sharing.specs.Offers.{AreRelays};
ghost use Rattle.fetch_plan.specs.Takers.{at, offered, AreOffered, IsMoved};
ghost use Rattle.fetch_plan.specs.Chains.{set_at, LeadsBelow, IsBeyond, AreReached, IsClosed, IsLow, Begins};

use item_key::Id;
use offer_table::RelaySet;
use sharing::{RELAYS, SLOTS};

/// The relays with this load.
fn relays_with(loads: &[u64; SLOTS], most: u64) -> RelaySet
    ensures relays { AreRelays result }
    ensures sound { (r : ℕ) → is_among result r ≡ true → at loads.now r ≡ most }
    ensures whole { Begins loads.now most (is_among result) }
{
    let mut relays = RelaySet::empty();
    for relay in 0..RELAYS {
        if loads[usize::from(relay)] == most {
            relays = relays.with(relay);
        }
    }
    relays
}

/// A relay that was reached and isn't done.
fn next_of(reached: RelaySet, done: &[bool; SLOTS]) -> Option<u16>
    ensures next { IfSome result (λ r. (r < RELAYS) × (is_among reached r ≡ true) × (slice_index_or done.now r false ≡ false)) }
    ensures none { IfNone result ((r : ℕ) → r < RELAYS → is_among reached r ≡ true → slice_index_or done.now r false ≡ true) }
{
    for relay in 0..RELAYS {
        if reached.has(relay) && !done[usize::from(relay)] {
            return Some(relay);
        }
    }
    None
}

/// The first id that is taken to one relay and offered by another.
fn place_of(offers: &[(Id, RelaySet)], takers: &[u16], from: u16, to: u16) -> usize
    requires long { length takers.now ≡ length offers.now }
    requires leads { LeadsBelow offers.now takers.now (length takers.now) from to }
    ensures within { result < length takers.now }
    ensures giver { at takers.now result ≡ from }
    ensures taker { is_among (offered offers.now result) to ≡ true }
{
    for (place, taker) in takers.iter().enumerate() {
        if *taker == from && offers[place].1.has(to) {
            return place;
        }
    }
    unreachable!()
}

/// The relays that chains reach from the busiest ones.
#[derive(Drop)]
pub(crate) struct Search {
    pub(crate) reached: RelaySet,
    /// For each reached relay, but the busiest, the one from which it was reached.
    froms: [u16; SLOTS],
    /// For each reached relay the turn in which it was reached: 0 for the busiest.
    turns: [u16; SLOTS],
    /// How many turns there were.
    turn: u16,
}

impl Search {
    /// Where just the busiest relays are reached.
    pub(crate) fn new(loads: &[u64; SLOTS], most: u64) -> Search
        ensures reach { (beyond : List (List ℕ)) → AreReached beyond loads.now most result }
        ensures start { result.turn ≡ 0 }
    {
        Search {
            reached: relays_with(loads, most),
            froms: [0; SLOTS],
            turns: [0; SLOTS],
            turn: 0,
        }
    }

    /// Reaches what is beyond a relay, in a turn more.
    fn reach_from(&mut self, beyond: &[RelaySet], relay: u16)
        requires small { relay < RELAYS }
        requires long { length beyond.now ≡ SLOTS }
        requires known { is_among self.old.reached relay ≡ true }
        requires earlier { at self.old.turns relay ≤ self.old.turn }
        requires room { self.old.turn < RELAYS }
        ensures reach { (loads : List ℕ) (most : ℕ) → AreReached beyond.now loads most self.old → AreReached beyond.now loads most self.new }
        ensures turn { self.new.turn ≡ self.old.turn + 1 }
        ensures stay { (r : ℕ) → is_among self.old.reached r ≡ true → is_among self.new.reached r ≡ true }
        ensures closed { (s : ℕ) → is_among (set_at beyond.now relay) s ≡ true → is_among self.new.reached s ≡ true }
    {
        self.turn += 1;
        let others = beyond[usize::from(relay)];
        for other in 0..RELAYS {
            if others.has(other) && !self.reached.has(other) {
                self.reached = self.reached.with(other);
                self.froms[usize::from(other)] = relay;
                self.turns[usize::from(other)] = self.turn;
            }
        }
    }

    /// Reaches relays until there is one with at least two fewer than the busiest ones, which it answers, or no more.
    pub(crate) fn run(
        &mut self,
        beyond: &[RelaySet],
        loads: &[u64; SLOTS],
        most: u64,
    ) -> Option<u16>
        requires long { length beyond.now ≡ SLOTS }
        requires bound { (r : ℕ) → r < RELAYS → at loads.now r ≤ most }
        requires reach { AreReached beyond.now loads.now most self.old }
        requires start { self.old.turn ≡ 0 }
        ensures reach { AreReached beyond.now loads.now most self.new }
        ensures low { IfSome result (IsLow loads.now most self.new.reached) }
        ensures closed { IfNone result (IsClosed beyond.now loads.now most self.new.reached) }
    {
        let mut done = [false; SLOTS];
        'turns: while let Some(relay) = next_of(self.reached, &done) {
            let slot = usize::from(relay);
            if most - loads[slot] > 1 {
                return Some(relay);
            }
            done[slot] = true;
            self.reach_from(beyond, relay);
        }
        None
    }

    /// Moves one id along each way, from the relay `end` back to a busiest one, which it answers.
    pub(crate) fn walk(&self, offers: &[(Id, RelaySet)], takers: &mut [u16], end: u16) -> u16
        requires offered { AreOffered offers.now takers.old }
        requires reach { (beyond : List (List ℕ)) × (loads : List ℕ) × (most : ℕ) × IsBeyond offers.now takers.old (length takers.old) beyond × AreReached beyond loads most self.now × (is_among self.now.reached end ≡ true) }
        ensures small { result < RELAYS }
        ensures start { (beyond : List (List ℕ)) (loads : List ℕ) (most : ℕ) → AreReached beyond loads most self.now → at loads result ≡ most }
        ensures moved { IsMoved takers.old takers.new result end }
        ensures offered { AreOffered offers.now takers.new }
    {
        let mut at = end;
        'back: while self.turns[usize::from(at)] > 0 {
            let from = self.froms[usize::from(at)];
            let place = place_of(offers, takers, from, at);
            takers[place] = at;
            at = from;
        }
        at
    }
}
