//! The history of a store, before and after it has its name.
ghost use Rattle.std.specs.Prelude.{◌≡◌, ◌<◌, ◌≤◌, ◌^◌, [], ◌∷◌, ◌++◌, suc, length, take, IsTrue, MatchBool, Some, None, IfSome, option_map};
ghost use mathlib.Core.List.{IsPrefix};
ghost use Rattle.event_store.specs.History.{head_of, IsLevel};

use crate::mark::Mark;
use crate::name::{Law, Naming};
use event_list::EventList;
use logbook::{Seen, Start, Word};
use nostr_event::Event;
use std::marker::{Model, PhantomData};

/// A history with no events, which has no name yet. Contracts see it as its book.
pub struct Blank {
    word: Word<Event, u64, Law>,
    seen: Seen<Event, u64, Law>,
}

// By hand, as a derived one is proved anew wherever a value is dropped.
impl Drop for Blank {
    fn drop(self) {
        let Self { word: _, seen: _ } = self;
    }
}

impl Model for Blank {
    ghost use Rattle.std.specs.Prelude.{◌≡◌, []};
    ghost use Rattle.logbook.specs.Pages.{Book, book_coded};
    ghost use Rattle.event_store.specs.History.{head_of};

    ghost Value = { Book };

    ghost coded = { book_coded };

    ghost view = { λ b. b.seen.book };

    ghost invariant = { λ b. (b.word ≡ head_of b.seen.book) × (b.seen.log ≡ []) };
}

impl Blank {
    pub fn new() -> Blank {
        let (seen, mut first, _second) = Seen::open(Start::alone(), 0, 0);
        Blank {
            word: Word::tracked(0, &mut first),
            seen,
        }
    }

    /// The end of the history of that name, and that nothing was seen of it.
    pub(crate) fn named<J: Naming>(self) -> (Head<J>, Front<J>)
        requires { self ≡ J.book }
        ensures head { result.0 ≡ Some 0 }
        ensures front { result.1 ≡ [] }
    {
        let Blank { word, seen } = self;
        let head = Head {
            word,
            len: Some(0),
            of: PhantomData,
        };
        (head, Front::of(Mark::new(seen)))
    }
}

/// Where the history goes on. Contracts see it as how many events were added, and as none once it may have gone on further
/// than what is published: then nothing can be added any more.
pub struct Head<J: Naming> {
    word: Word<Event, u64, Law>,
    len: Option<u64>,
    of: PhantomData<J>,
}

// By hand, as a derived one is proved anew wherever a value is dropped.
impl<J: Naming> Drop for Head<J> {
    fn drop(self) {
        let Self {
            word: _,
            len: _,
            of: _,
        } = self;
    }
}

impl<J: Naming> Model for Head<J> {
    ghost use Rattle.std.specs.Prelude.{◌≡◌, ℕ, Option};
    ghost use Rattle.event_store.specs.History.{head_of};

    ghost Value = { Option ℕ };

    ghost view = { λ h. h.len };

    ghost invariant = { λ h. h.word ≡ head_of J.book };
}

impl<J: Naming> Head<J> {
    /// The history went on further than what is published.
    pub fn lose(&mut self)
        ensures { self.new ≡ None }
    {
        self.len = None;
    }

    // One event was added, or the history had gone on further.
    fn count(&mut self, added: bool)
        requires { IfSome self.old (λ n. n < 2 ^ 62) }
        ensures { MatchBool added (self.new ≡ option_map suc self.old) (self.new ≡ None) }
    {
        self.len = match self.len {
            Some(n) if added => Some(n + 1),
            _ => None,
        };
    }
}

/// A beginning of the history of that name, which was seen. Contracts see it as its events.
pub struct Front<J: Naming> {
    mark: Mark,
    of: PhantomData<J>,
}

// By hand, as a derived one is proved anew wherever a value is dropped.
impl<J: Naming> Drop for Front<J> {
    fn drop(self) {
        let Self { mark: _, of: _ } = self;
    }
}

impl<J: Naming> Model for Front<J> {
    ghost use Rattle.std.specs.Prelude.{◌≡◌, List};
    ghost use Rattle.nostr_event.specs.EventView.{EventView};

    ghost Value = { List EventView };

    ghost view = { λ f. f.mark.list };

    ghost invariant = { λ f. f.mark.book ≡ J.book };
}

impl<J: Naming> Front<J> {
    pub(crate) fn of(mark: Mark) -> Front<J>
        requires { mark.book ≡ J.book }
        ensures { result ≡ mark.list }
    {
        Front {
            mark,
            of: PhantomData,
        }
    }

    pub(crate) fn into_mark(self) -> Mark
        ensures { (result.book ≡ J.book) × (result.list ≡ self) }
    {
        let Front { mark, of: _ } = self;
        mark
    }

    /// How many events it has.
    pub fn len(&self) -> u64
        ensures { result ≡ length self.now }
    {
        self.mark.len()
    }

    /// A copy.
    pub fn again(&self) -> Front<J>
        ensures { result ≡ self.now }
    {
        Front {
            mark: self.mark.again(),
            of: PhantomData,
        }
    }

    /// A beginning of the history begins each one that is no shorter.
    pub fn compare(&self, other: &Front<J>)
        ensures { length self.now ≤ length other.now → IsPrefix self.now other.now }
    {
        self.mark.compare(&other.mark);
    }

    /// Adds an event to all that was seen, and says whether it did. It did not where the history is longer.
    pub(crate) fn add(&mut self, head: &mut Head<J>, event: &Event) -> bool
        requires room { length self.old < 2 ^ 62 }
        requires level { IsLevel head.old self.old }
        ensures list { MatchBool result (self.new ≡ self.old ++ event.now ∷ []) (length self.old < length self.new) }
        ensures head { MatchBool result (head.new ≡ option_map suc head.old) (head.new ≡ None) }
    {
        let added = self.mark.add(&head.word, event);
        head.count(added);
        added
    }

    /// Adds the events from a place on, where those before it were seen, and says whether it did. It did not where the history is
    /// longer.
    pub(crate) fn add_from(&mut self, head: &mut Head<J>, events: &EventList, start: usize) -> bool
        requires seen { self.old ≡ take start events.now }
        requires room { length events.now < 2 ^ 62 }
        requires level { IsLevel head.old self.old }
        ensures list { IsTrue result → self.new ≡ events.now }
        ensures head { MatchBool result (head.new ≡ option_map (λ _. length events.now) head.old) (head.new ≡ None) }
    {
        for place in start..events.len() {
            if !self.add(head, events.get(place)) {
                return false;
            }
        }
        true
    }
}
