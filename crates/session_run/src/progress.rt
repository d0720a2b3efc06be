//! How far the job is, told while it goes on.

use crate::fetching::Counts;
use offer_table::RelaySet;
use sharing::SLOTS;
use std::fmt::{self, Display};
use std::io::{self, Write};
use std::rt::Clock;
use std::sync::{Mutex, Wait};
use std::time::Instant;

/// Where it is told how far the job is, if that is wanted, from any thread and in whole lines. What can't be written is
/// passed over.
pub struct Progress<P> {
    telling: Option<Mutex<Telling<P>>>,
    // Whether a relay failed or an id is left.
    fell_short: Mutex<bool>,
    // The relays that failed since that was asked.
    failed: Mutex<RelaySet>,
}

// By hand, as a derived one is proved anew wherever a value is dropped.
impl<P: Drop> Drop for Progress<P> {
    fn drop(self) {
        let Self {
            telling: _,
            fell_short: _,
            failed: _,
        } = self;
    }
}

/// What is told of a relay, which has a number and a name.
#[derive(Drop)]
pub struct RelayLine<'a, D> {
    pub relay: usize,
    pub name: &'a str,
    pub why: &'a D,
}

impl<D: Display> Display for RelayLine<'_, D> {
    fn fmt<W: fmt::Write>(&self, f: &mut fmt::Formatter<W>) -> fmt::Result {
        let (relay, name, why) = (self.relay, self.name, self.why);
        write!(f, "relay {relay} {name}: {why}")
    }
}

impl<P> Progress<P> {
    /// Tells it to the writer.
    pub fn to(writer: P) -> Progress<P> {
        Progress {
            telling: Some(Mutex::new(Telling {
                writer,
                round: Fetching::default(),
                last: None,
            })),
            fell_short: Mutex::new(false),
            failed: Mutex::new(RelaySet::empty()),
        }
    }

    /// Tells nothing.
    pub fn none() -> Progress<P> {
        Progress {
            telling: None,
            fell_short: Mutex::new(false),
            failed: Mutex::new(RelaySet::empty()),
        }
    }
}

impl<P> Progress<P> {
    /// A relay failed, or an id is left.
    pub fn fall_short<R: Wait>(&self, rt: &R) {
        *self.fell_short.lock(rt) = true;
    }

    /// Whether a relay failed or an id was left.
    pub fn fell_short<R: Wait>(&self, rt: &R) -> bool {
        *self.fell_short.lock(rt)
    }

    // A relay failed.
    fn note_failed<R: Wait>(&self, rt: &R, relay: usize) {
        if relay < SLOTS {
            let mut failed = self.failed.lock(rt);
            *failed = (*failed).with(relay as u16);
        }
    }

    /// The relays that failed since this was asked last.
    pub fn take_failed<R: Wait>(&self, rt: &R) -> RelaySet {
        let mut failed = self.failed.lock(rt);
        let taken = *failed;
        *failed = RelaySet::empty();
        taken
    }
}

impl<P: Write> Progress<P> {
    /// A relay failed: tells why.
    pub fn fail<R: Wait, D: Display>(&self, rt: &R, line: RelayLine<'_, D>) {
        self.fall_short(rt);
        self.note_failed(rt, line.relay);
        self.say(rt, line);
    }

    /// Tells that the store is full, if it is.
    pub fn tell_full<R: Wait>(&self, rt: &R, is_full: bool) {
        if is_full {
            self.say(rt, "the store is full");
        }
    }

    /// Notes whether ids are left in the end.
    pub fn note_left<R: Wait>(&self, rt: &R, counts: &Counts) {
        if counts.left > 0 {
            self.fall_short(rt);
        }
    }

    /// Tells how many events the file had.
    pub fn tell_loaded<R: Wait>(&self, rt: &R, count: u64) {
        self.say(rt, format_args!("{count} events are loaded"));
    }

    /// Tells how many events the file has in the end.
    pub fn tell_kept<R: Wait>(&self, rt: &R, count: u64) {
        self.say(rt, format_args!("{count} events are kept"));
    }

    /// Tells a count.
    pub fn tell<R: Wait>(&self, rt: &R, count: usize, what: &str) {
        if let Some(telling) = &self.telling {
            telling.lock(rt).line(format_args!("{count} {what}"));
        }
    }

    /// Tells a line.
    pub fn say<R: Wait, D: Display + Drop>(&self, rt: &R, line: D) {
        if let Some(telling) = &self.telling {
            telling.lock(rt).line(line);
        }
    }

    /// Tells what became of ids.
    pub fn tell_counts<R: Wait>(&self, rt: &R, counts: &Counts) {
        let (given, missed, left) = (counts.given, counts.missed, counts.left);
        self.say(
            rt,
            format_args!("{given} ids given, {missed} missed, {left} left"),
        );
    }

    /// A round begins, which fetches so many ids.
    pub fn begin<R: Wait + Clock>(&self, rt: &R, planned: usize) {
        if let Some(telling) = &self.telling {
            let now = Instant::now(rt).ok();
            telling.lock(rt).begin(now, planned);
        }
    }

    /// So many ids were asked for and answered with so many events. Of all that the round has fetched a line is told where
    /// none was for a second.
    pub fn fetched<R: Wait + Clock>(&self, rt: &R, ids: usize, events: usize) {
        if let Some(telling) = &self.telling {
            let now = Instant::now(rt).ok();
            telling.lock(rt).fetched(now, ids, events);
        }
    }
}

/// What a round has fetched.
#[derive(Clone, Copy, Default)]
struct Fetching {
    planned: usize,
    answered: usize,
    came: usize,
}

/// A writer, and what is told next.
#[derive(Drop)]
struct Telling<P> {
    writer: P,
    round: Fetching,
    // When it was last told what the round has fetched, or the round began.
    last: Option<Instant>,
}

impl<P: Write> Telling<P> {
    fn line<D: Display + Drop>(&mut self, line: D) {
        let _ = self.writer.writeln(line);
        let _ = self.writer.flush();
    }

    fn begin(&mut self, now: Option<Instant>, planned: usize) {
        self.round = Fetching {
            planned,
            answered: 0,
            came: 0,
        };
        self.last = now;
    }

    fn fetched(&mut self, now: Option<Instant>, ids: usize, events: usize) {
        self.round.answered = self.round.answered.saturating_add(ids);
        self.round.came = self.round.came.saturating_add(events);
        if is_later(self.last, now) {
            self.last = now;
            let Fetching {
                planned,
                answered,
                came,
            } = self.round;
            let missed = answered.saturating_sub(came);
            let left = planned.saturating_sub(answered);
            self.line(format_args!("{came} ids given, {missed} missed, {left} left so far"));
        }
    }
}

/// Whether a second or more has gone by. Where the clock told no time, it has not.
fn is_later(last: Option<Instant>, now: Option<Instant>) -> bool {
    match (last, now) {
        (Some(last), Some(now)) => now.duration_since(last).as_secs() > 0,
        _ => false,
    }
}

/// A writer that keeps nothing.
#[derive(Clone, Copy)]
pub struct Nowhere;

impl Write for Nowhere {
    fn write(&mut self, buf: &[u8]) -> io::Result<usize> {
        Ok(buf.len())
    }

    fn flush(&mut self) -> io::Result<()> {
        Ok(())
    }
}
