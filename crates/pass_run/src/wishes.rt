//! Which relays are to be subscribed to.

use offer_table::RelaySet;
use std::alloc::{AllocError, Global};
use std::sync::{Condvar, Mutex, Wait};

/// Whether a relay is subscribed to.
#[derive(Clone, Copy, PartialEq, Eq)]
enum Wish {
    /// It isn't.
    None,
    /// It is to be, for events from that second since 1970 on.
    Since(u64),
    /// It is, or that is tried.
    Granted,
}

/// What is wished of each relay.
#[derive(Drop)]
struct State {
    each: Vec<Wish>,
    // Whether the job is over.
    is_over: bool,
}

impl State {
    // Whether a relay is to be subscribed to, or the job is over.
    fn is_due(&self, relay: usize) -> bool {
        self.is_over || (relay < self.each.len() && matches!(self.each[relay], Wish::Since(_)))
    }

    // A relay is to be subscribed to, for events from that second on, unless it is.
    fn wish(&mut self, relay: usize, since: u64) {
        if relay < self.each.len() && self.each[relay] != Wish::Granted {
            self.each[relay] = Wish::Since(since);
        }
    }

    // From which second on a relay is to be subscribed to, if it is to be. It is granted then.
    fn grant(&mut self, relay: usize) -> Option<u64> {
        if self.is_over || relay >= self.each.len() {
            return None;
        }
        match self.each[relay] {
            Wish::Since(since) => {
                self.each[relay] = Wish::Granted;
                Some(since)
            }
            _ => None,
        }
    }
}

/// Which relays are to be subscribed to, which who passes tells those who listen.
#[derive(Drop)]
pub struct Wishes {
    state: Mutex<State>,
    come: Condvar,
}

impl Wishes {
    /// So many relays, of which none is.
    pub fn new(alloc: Global, count: usize) -> Result<Wishes, AllocError> {
        Ok(Wishes {
            state: Mutex::new(State {
                each: Vec::from_elem(alloc, Wish::None, count)?,
                is_over: false,
            }),
            come: Condvar::new(),
        })
    }

    /// How many relays there are.
    pub fn len<R: Wait>(&self, rt: &R) -> usize {
        self.state.lock(rt).each.len()
    }

    /// These are to be subscribed to, for events from that second on, but for those that are.
    pub fn wish<R: Wait>(&self, rt: &R, relays: RelaySet, since: u64) {
        let mut state = self.state.lock(rt);
        for relay in relays.iter() {
            state.wish(usize::from(relay), since);
        }
        drop(state);
        self.come.notify_all();
    }

    /// From which second on a relay is to be subscribed to, which is waited for, or none where the job is over.
    pub fn granted<R: Wait>(&self, rt: &R, relay: usize) -> Option<u64> {
        let state = self.state.lock(rt);
        let mut state = self
            .come
            .wait_while(rt, state, |state| !state.is_due(relay));
        state.grant(relay)
    }

    /// A relay isn't subscribed to any more.
    pub fn take_back<R: Wait>(&self, rt: &R, relay: usize) {
        let mut state = self.state.lock(rt);
        if relay < state.each.len() {
            state.each[relay] = Wish::None;
        }
    }

    /// The job is over.
    pub fn end<R: Wait>(&self, rt: &R) {
        let mut state = self.state.lock(rt);
        state.is_over = true;
        drop(state);
        self.come.notify_all();
    }

    /// Whether the job is over.
    pub fn is_over<R: Wait>(&self, rt: &R) -> bool {
        self.state.lock(rt).is_over
    }
}
