//! Where a connection is between its turns.

use std::sync::atomic::{AtomicBool, Ordering};
use std::sync::{Mutex, Wait};

/// Whether a seat is due a turn.
#[derive(Clone, Copy, PartialEq, Eq)]
enum Due {
    /// It isn't.
    No,
    /// It stands in the queue.
    Queued,
    /// It has its turn.
    Served,
    /// It has its turn, and is due another.
    Again,
}

/// A place for a connection. It has one turn at a time.
pub struct Seat<G> {
    due: Mutex<Due>,
    is_subscribed: AtomicBool,
    is_blocked: AtomicBool,
    is_pinged: AtomicBool,
    is_slow: AtomicBool,
    is_long: AtomicBool,
    /// Its connection, which is taken out while it is served.
    pub guest: Mutex<Option<G>>,
}

// By hand, as a derived one is proved anew wherever a value is dropped.
impl<G: Drop> Drop for Seat<G> {
    fn drop(self) {
        let Self {
            due: _,
            is_subscribed: _,
            is_blocked: _,
            is_pinged: _,
            is_slow: _,
            is_long: _,
            guest: _,
        } = self;
    }
}

impl<G> Seat<G> {
    /// A place that nobody has.
    pub fn new() -> Seat<G> {
        Seat {
            due: Mutex::new(Due::No),
            is_subscribed: AtomicBool::new(false),
            is_blocked: AtomicBool::new(false),
            is_pinged: AtomicBool::new(false),
            is_slow: AtomicBool::new(false),
            is_long: AtomicBool::new(false),
            guest: Mutex::new(None),
        }
    }

    /// It is due a turn. Tells whether it is to be put into the queue.
    pub fn call<R: Wait>(&self, rt: &R) -> bool {
        let mut due = self.due.lock(rt);
        let (is_queued, next) = match *due {
            Due::No => (true, Due::Queued),
            Due::Queued => (false, Due::Queued),
            Due::Served => (false, Due::Again),
            Due::Again => (false, Due::Again),
        };
        *due = next;
        is_queued
    }

    /// Its client is to be told something. Tells whether that can be done at once; else a turn is due, which does it too.
    pub fn is_at_hand<R: Wait>(&self, rt: &R) -> bool {
        let mut due = self.due.lock(rt);
        let (is_at_hand, next) = match *due {
            Due::No => (true, Due::Served),
            Due::Queued => (false, Due::Queued),
            Due::Served => (false, Due::Again),
            Due::Again => (false, Due::Again),
        };
        *due = next;
        is_at_hand
    }

    /// Its turn begins.
    pub fn begin<R: Wait>(&self, rt: &R) {
        *self.due.lock(rt) = Due::Served;
    }

    /// Its turn is over, and it is due another at once or isn't. Tells whether it is to be put into the queue.
    pub fn end<R: Wait>(&self, rt: &R, is_ready: bool) -> bool {
        let mut due = self.due.lock(rt);
        let is_due = is_ready || *due == Due::Again;
        *due = if is_due { Due::Queued } else { Due::No };
        is_due
    }

    /// Notes what is known of its connection behind a turn. Tells whether something might be published for it before.
    pub fn note(&self, is_subscribed: bool, is_blocked: bool) -> bool {
        self.is_blocked.store(is_blocked, Ordering::SeqCst);
        self.is_subscribed.swap(is_subscribed, Ordering::SeqCst)
    }

    /// Whether something may be published for its connection.
    pub fn is_subscribed(&self) -> bool {
        self.is_subscribed.load(Ordering::SeqCst)
    }

    /// Whether bytes wait until its client takes them.
    pub fn is_blocked(&self) -> bool {
        self.is_blocked.load(Ordering::SeqCst)
    }

    /// Notes whether its last turn took long, and whether it ended before a long text or within one.
    pub fn note_pace(&self, is_slow: bool, is_long: bool) {
        self.is_slow.store(is_slow, Ordering::SeqCst);
        self.is_long.store(is_long, Ordering::SeqCst);
    }

    /// Whether its last turn took long.
    pub fn is_slow(&self) -> bool {
        self.is_slow.load(Ordering::SeqCst)
    }

    /// Whether its last turn ended before a long text or within one.
    pub fn is_long(&self) -> bool {
        self.is_long.load(Ordering::SeqCst)
    }

    /// A ping is wanted.
    pub fn want_ping(&self) {
        self.is_pinged.store(true, Ordering::SeqCst);
    }

    /// Whether a ping is wanted, which it is no more then.
    pub fn takes_ping(&self) -> bool {
        self.is_pinged.swap(false, Ordering::SeqCst)
    }
}

impl<G: Drop> Seat<G> {
    /// A connection has it from now on.
    pub fn give<R: Wait>(&self, rt: &R, guest: G) {
        self.put_back(rt, guest);
        let _ = self.note(false, false);
        self.note_pace(false, false);
    }

    /// The connection has it again.
    pub fn put_back<R: Wait>(&self, rt: &R, guest: G) {
        *self.guest.lock(rt) = Some(guest);
    }
}
