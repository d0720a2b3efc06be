//! A beginning of a history, which was seen.
ghost use Rattle.std.specs.Prelude.{◌≡◌, ◌<◌, ◌≤◌, ◌^◌, ◌∷◌, [], ◌++◌, length, MatchBool};
ghost use mathlib.Core.List.{IsPrefix};
ghost use Rattle.event_store.specs.History.{head_of};

use crate::name::{Adds, Law, Nothing};
use logbook::{Offer, Seen, Word};
use nostr_event::Event;
use std::marker::Model;

/// Contracts see it as the history's book, and the events.
pub struct Mark {
    len: u64,
    seen: Seen<Event, u64, Law>,
}

// By hand, as a derived one is proved anew wherever a value is dropped.
impl Drop for Mark {
    fn drop(self) {
        let Self { len: _, seen: _ } = self;
    }
}

impl Model for Mark {
    ghost use Rattle.std.specs.Prelude.{◌≡◌, length};
    ghost use Rattle.event_store.specs.Marks.{Marked, marked};

    ghost Value = { Marked };

    ghost view = { λ m. marked m.seen.book m.seen.log };

    ghost invariant = { λ m. m.len ≡ length m.seen.log };
}

impl Mark {
    pub fn new(seen: Seen<Event, u64, Law>) -> Mark
        requires { seen.log ≡ [] }
        ensures { (result.book ≡ seen.book) × (result.list ≡ []) }
    {
        Mark { len: 0, seen }
    }

    pub fn len(&self) -> u64
        ensures { result ≡ length self.now.list }
    {
        self.len
    }

    /// A copy.
    pub fn again(&self) -> Mark
        ensures { result ≡ self.now }
    {
        Mark {
            len: self.len,
            seen: self.seen.again(),
        }
    }

    /// A beginning of a history begins each one that is no shorter.
    pub fn compare(&self, other: &Mark)
        requires { other.now.book ≡ self.now.book }
        ensures { length self.now.list ≤ length other.now.list → IsPrefix self.now.list other.now.list }
    {
        let mut both = self.seen.again();
        both.learn(&other.seen);
    }

    /// Adds an event to all that was seen, and says whether it did. It did not where the history is longer.
    pub fn add(&mut self, word: &Word<Event, u64, Law>, event: &Event) -> bool
        requires word { word.now ≡ head_of self.old.book }
        requires room { length self.old.list < 2 ^ 62 }
        ensures book { self.new.book ≡ self.old.book }
        ensures list { MatchBool result (self.new.list ≡ self.old.list ++ event.now ∷ []) (length self.old.list < length self.new.list) }
    {
        let mut offer: Offer<Event, u64, Law, Nothing> = self
            .seen
            .plain::<Nothing, Event, Adds>(event);
        let mut pen = self.seen.no_pen();
        let len = self.len;
        let found = word.compare_exchange::<Adds, Nothing>(
            len,
            len + 1,
            &mut self.seen,
            &mut offer,
            &mut pen,
        );
        self.len = if found == len { len + 1 } else { found };
        found == len
    }
}
