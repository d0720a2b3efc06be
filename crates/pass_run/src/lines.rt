//! What is told, a line each, with the time in front.

ghost use Rattle.std.specs.Prelude.{◌≡◌, ◌++◌, OnOk, IfOk, string_bytes, List, ℕ};
ghost use Rattle.std.specs.Io.KnownBytes.{Appends};
ghost use Rattle.pass_run.specs.Lines.{IsStamped, line_of, pass_text, news_text};

use crate::roster::{News, State};
use crate::tally::Tally;
use jiff::Timestamp;
use std::alloc::{AllocError, Global};
use std::fmt;
use std::io::Write;
use std::rt::Clock;
use std::time::{SystemTime, UNIX_EPOCH};
use store_run::{Refusal, say};

impl fmt::Display for Tally {
    ghost use Rattle.std.specs.Prelude.{Some};
    ghost use Rattle.pass_run.specs.Lines.{tally_text};

    ghost output = { λ t. Some (tally_text t) };

    #[tactic(auto, unfolding(crate::specs::Lines::tally_text))]
    fn fmt<W: fmt::Write>(&self, f: &mut fmt::Formatter<W>) -> fmt::Result {
        let (need, given, missed, left) = (self.need, self.given, self.missed, self.left);
        write!(f, "need {need} given {given} missed {missed} left {left}")
    }
}

/// A pass's number, and how many relays are level, of how many.
#[derive(Clone, Copy)]
struct Head {
    pass: u64,
    level: usize,
    relays: usize,
}

impl fmt::Display for Head {
    ghost use Rattle.std.specs.Prelude.{Some};
    ghost use Rattle.pass_run.specs.Lines.{head_text};

    ghost output = { λ h. Some (head_text h.pass h.level h.relays) };

    #[tactic(auto, unfolding(crate::specs::Lines::head_text))]
    fn fmt<W: fmt::Write>(&self, f: &mut fmt::Formatter<W>) -> fmt::Result {
        let (pass, level, relays) = (self.pass, self.level, self.relays);
        write!(f, "pass {pass} relays {level}/{relays}")
    }
}

/// What a pass came to.
#[derive(Clone, Copy)]
pub struct PassLine {
    /// The pass's number, from 1 on.
    pub pass: u64,
    /// How many relays are level, of how many.
    pub level: usize,
    pub relays: usize,
    pub tally: Tally,
    /// How many milliseconds it took.
    pub millis: u64,
}

impl fmt::Display for PassLine {
    ghost use Rattle.std.specs.Prelude.{Some};
    ghost use Rattle.pass_run.specs.Lines.{pass_text};

    ghost output = { λ p. Some (pass_text p.pass p.level p.relays p.tally p.millis) };

    fn fmt<W: fmt::Write>(&self, f: &mut fmt::Formatter<W>) -> fmt::Result {
        let head = Head {
            pass: self.pass,
            level: self.level,
            relays: self.relays,
        };
        let (tally, millis) = (self.tally, self.millis);
        write!(f, "{head} {tally} ms {millis}")
    }
}

/// What is new of a relay.
#[derive(Clone, Copy)]
pub struct NewsLine {
    pub relay: u16,
    pub news: News,
}

impl fmt::Display for NewsLine {
    ghost use Rattle.std.specs.Prelude.{Some};
    ghost use Rattle.pass_run.specs.Lines.{news_text};

    ghost output = { λ l. Some (news_text l.relay l.news) };

    fn fmt<W: fmt::Write>(&self, f: &mut fmt::Formatter<W>) -> fmt::Result {
        let relay = self.relay;
        match self.news {
            News::Stands(State::Unknown) => write!(f, "relay {relay} unknown"),
            News::Stands(State::Level) => write!(f, "relay {relay} level"),
            News::Stands(State::Failed(number)) => write!(f, "relay {relay} failed {number}"),
            News::LeftOut(second, number) => {
                write!(f, "relay {relay} left out {second} failed {number}")
            }
        }
    }
}

/// The time by the system's clock, in seconds since 1970; 0 where it tells none.
pub fn seconds_now<C: Clock>(clock: &C) -> u64 {
    match SystemTime::now(clock) {
        Ok(now) => match now.duration_since(UNIX_EPOCH) {
            Ok(since) => since.as_secs(),
            Err(_) => 0,
        },
        Err(_) => 0,
    }
}

/// The time, as RFC 3339 writes it in UTC, in seconds.
fn stamp<C: Clock>(clock: &C, alloc: Global) -> Result<String, AllocError> {
    let seconds = seconds_now(clock).min(253_402_207_200) as i64;
    match Timestamp::from_second(seconds) {
        Ok(stamp) => format!(in alloc; "{stamp}"),
        Err(_) => Ok(String::new(alloc)),
    }
}

/// Tells a text in a line, with a time in front.
fn say_line<W: Write>(alloc: Global, writer: &mut W, stamp: &str, text: &str) -> Result<(), Refusal>
    ensures { OnOk result (Appends (W.contents writer.old) (W.contents writer.new) (line_of stamp.now text.now)) }
{
    let line = format!(in alloc; "{stamp} {text}\n")?;
    say(writer, line.as_str())
}

/// Tells what a pass came to.
pub fn say_pass<C: Clock, W: Write>(
    clock: &C,
    alloc: Global,
    writer: &mut W,
    line: &PassLine,
) -> Result<(), Refusal>
    ensures { OnOk result (IsStamped (W.contents writer.old) (W.contents writer.new) (pass_text line.now.pass line.now.level line.now.relays line.now.tally line.now.millis)) }
{
    let stamp = stamp(clock, alloc)?;
    let text = format!(in alloc; "{line}")?;
    say_line(alloc, writer, stamp.as_str(), text.as_str())
}

/// Tells what is new of a relay.
pub fn say_news<C: Clock, W: Write>(
    clock: &C,
    alloc: Global,
    writer: &mut W,
    line: &NewsLine,
) -> Result<(), Refusal>
    ensures { OnOk result (IsStamped (W.contents writer.old) (W.contents writer.new) (news_text line.now.relay line.now.news)) }
{
    let stamp = stamp(clock, alloc)?;
    let text = format!(in alloc; "{line}")?;
    say_line(alloc, writer, stamp.as_str(), text.as_str())
}
