//! The name of a store, and the history that has the events of all time.
ghost use Rattle.std.specs.Prelude.{◌≡◌};

use logbook::{Gain, Plain, Play, Rule};
use nostr_event::Event;
use std::marker::Brand;

/// The rule of the history.
pub struct Law;

impl Rule<Event, u64> for Law {
    ghost use Rattle.std.specs.Prelude.{[]};
    ghost use base.Fml.{ftrue};
    ghost use Rattle.event_store.specs.History.{IsKept};

    ghost holds = { λ cells log. IsKept cells log };

    ghost first = { [] };

    ghost hinted = { λ n log. Unit {0} };

    ghost shows = { λ log. [] };

    ghost keeps = { λ names log. ftrue };

    ghost moves = { λ ask before after answer. Unit {0} };
}

/// Callers trade nothing.
pub struct Nothing;

impl Gain<Event, u64> for Nothing {
    ghost use base.Fml.{ftrue};

    ghost after = { λ names about answer. ftrue };
}

/// A step that adds an event.
pub struct Adds;

impl Play<Event, u64> for Adds {
    ghost use Rattle.event_store.specs.History.{Added};

    ghost then = { Added };
}

/// What a step asks for: the event.
impl Plain<Event, Event, u64> for Adds {
    ghost use Rattle.std.specs.Prelude.{None};

    ghost ask = { λ event. event };

    ghost state = { λ event. None };
}

/// Which store it is. Each call of a program picks it.
pub trait Naming {
    ghost use Rattle.std.specs.Prelude.{ℕ};
    ghost use Rattle.logbook.specs.Pages.{Book};

    ghost book: { Book };

    // The most events that the store takes.
    ghost most: { ℕ };
}

impl Naming for Brand {
    ghost book = { record { number = 0; log_name = 0; cells_name = 0 } };

    ghost most = { 1000000 };
}
