//! How the relays stand.

use offer_table::RelaySet;
use std::alloc::{AllocError, Global};

/// For how many milliseconds at most a relay that fails is left alone: an hour.
const LONGEST_REST: u64 = 3_600_000;

/// In how many slices of a pass a relay may be left out, until it fails.
const MOST_ASIDE: u8 = 3;

/// How a relay stands.
#[derive(Clone, Copy, PartialEq, Eq)]
pub enum State {
    /// Nothing is known of it.
    Unknown,
    /// All that it listed in a pass was compared, and all that it was asked for was answered.
    Level,
    /// It failed, by the fault of this number.
    Failed(u8),
}

/// What is told of a relay.
#[derive(Clone, Copy)]
pub enum News {
    /// How it stands now.
    Stands(State),
    /// It was left out of the slice of this second since 1970, by the fault of this number.
    LeftOut(u64, u8),
}

/// How one relay stands.
#[derive(Clone, Copy)]
struct Standing {
    // What was told last.
    told: State,
    // What is known of it in this pass.
    state: State,
    // When it is asked again, in milliseconds since the job began.
    rests_until: u64,
    // For how many milliseconds it is left alone where it fails.
    rest: u64,
    // In how many slices of this pass it was left out.
    aside: u8,
}

/// How the relays stand, and who is asked.
pub struct Roster {
    each: Vec<Standing>,
    // For how many milliseconds a relay is left alone that failed once.
    rest: u64,
    // When this pass began, in milliseconds since the job began.
    began: u64,
    // Who isn't asked any more in this pass.
    out: RelaySet,
    // Who isn't asked in this slice.
    aside: RelaySet,
    // Whether a relay failed in this pass.
    has_failed: bool,
    news: Vec<(u16, News)>,
}

// By hand, as a derived one is proved anew wherever a value is dropped.
impl Drop for Roster {
    fn drop(self) {
        let Self {
            each: _,
            rest: _,
            began: _,
            out: _,
            aside: _,
            has_failed: _,
            news: _,
        } = self;
    }
}

impl Roster {
    /// So many relays, at most 256, of which nothing is known. One that fails is left alone for so many milliseconds first.
    pub fn new(alloc: Global, count: usize, rest: u64) -> Result<Roster, AllocError> {
        let unknown = Standing {
            told: State::Unknown,
            state: State::Unknown,
            rests_until: 0,
            rest,
            aside: 0,
        };
        Ok(Roster {
            each: Vec::from_elem(alloc, unknown, count.min(256))?,
            rest,
            began: 0,
            out: RelaySet::empty(),
            aside: RelaySet::empty(),
            has_failed: false,
            news: Vec::new(alloc),
        })
    }

    /// How many relays there are.
    pub fn len(&self) -> usize {
        self.each.len()
    }

    /// A pass begins, so many milliseconds since the job began: all are asked but those that are left alone.
    pub fn begin(&mut self, now: u64) {
        self.began = now;
        self.out = RelaySet::empty();
        self.aside = RelaySet::empty();
        self.has_failed = false;
        for at in 0..self.each.len() {
            self.each[at].aside = 0;
            if self.each[at].rests_until > now && at < 256 {
                self.out = self.out.with(at as u16);
            }
        }
    }

    /// Who isn't asked now.
    pub fn left_out(&self) -> RelaySet {
        self.out.union(self.aside)
    }

    /// Whether a relay is asked.
    pub fn is_anyone_asked(&self) -> bool {
        let left_out = self.left_out();
        for at in 0..self.each.len() {
            if at < 256 && !left_out.has(at as u16) {
                return true;
            }
        }
        false
    }

    /// A relay failed, by the fault of this number: it is left alone for some time, which is twice as long the next time.
    pub fn fail(&mut self, relay: u16, number: u8) -> Result<(), AllocError> {
        let at = usize::from(relay);
        if at >= self.each.len() || relay >= 256 || self.out.has(relay) {
            return Ok(());
        }
        self.out = self.out.with(relay);
        self.has_failed = true;
        let rest = self.each[at].rest;
        self.each[at].rests_until = self.began.saturating_add(rest);
        self.each[at].rest = rest.saturating_mul(2).min(LONGEST_REST.max(self.rest));
        self.stand(relay, State::Failed(number))
    }

    /// A relay is left out of the slice of that second, by the fault of this number. Where that happens too often, it has failed.
    pub fn set_aside(&mut self, relay: u16, second: u64, number: u8) -> Result<(), AllocError> {
        let at = usize::from(relay);
        if at >= self.each.len() || relay >= 256 {
            return Ok(());
        }
        self.aside = self.aside.with(relay);
        self.each[at].aside = self.each[at].aside.saturating_add(1);
        self.news.push((relay, News::LeftOut(second, number)))?;
        if self.each[at].aside >= MOST_ASIDE {
            return self.fail(relay, number);
        }
        self.each[at].state = State::Failed(number);
        Ok(())
    }

    /// The next slice begins: who was left out of the last one is asked again.
    pub fn next_slice(&mut self) {
        self.aside = RelaySet::empty();
    }

    // A relay stands so, which is told where it isn't what was told last.
    fn stand(&mut self, relay: u16, state: State) -> Result<(), AllocError> {
        let at = usize::from(relay);
        if at >= self.each.len() {
            return Ok(());
        }
        self.each[at].state = state;
        if self.each[at].told != state {
            self.each[at].told = state;
            self.news.push((relay, News::Stands(state)))?;
        }
        Ok(())
    }

    // The pass ends for a relay.
    fn end_one(&mut self, at: usize) -> Result<(), AllocError> {
        if at >= self.each.len() || at >= 256 || self.out.has(at as u16) {
            return Ok(());
        }
        self.each[at].rest = self.rest;
        let state = if self.each[at].aside == 0 {
            State::Level
        } else {
            self.each[at].state
        };
        self.stand(at as u16, state)
    }

    /// The pass ends, which went over all slices: relays that were asked to the end and left out of none are level.
    pub fn end(&mut self) -> Result<(), AllocError> {
        for at in 0..self.each.len() {
            self.end_one(at)?;
        }
        Ok(())
    }

    /// How many relays are level.
    pub fn level(&self) -> usize {
        let mut count = 0usize;
        for at in 0..self.each.len() {
            if self.each[at].state == State::Level {
                count = count.saturating_add(1);
            }
        }
        count
    }

    /// The relays that are level.
    pub fn levels(&self) -> RelaySet {
        let mut levels = RelaySet::empty();
        for at in 0..self.each.len() {
            if at < 256 && self.each[at].state == State::Level {
                levels = levels.with(at as u16);
            }
        }
        levels
    }

    /// Whether a relay failed in this pass.
    pub fn has_failed(&self) -> bool {
        self.has_failed
    }

    /// What is to be told, in order. It is told once.
    pub fn take_news(&mut self, alloc: Global) -> Vec<(u16, News)> {
        std::mem::replace(&mut self.news, Vec::new(alloc))
    }
}
