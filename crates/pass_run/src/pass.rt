//! One pass over the times of the filter, slice by slice.

ghost use Rattle.std.specs.Prelude.{◌≡◌, ◌<◌, List, IfOk, OnOk, IsSome};
ghost use Rattle.slices.specs.Course.{work_left};
ghost use Rattle.std.specs.Io.KnownBytes.{Appends};
ghost use Rattle.pass_run.specs.Passes.{IsFetchedBy, IsTaken, IfPlanned, IfWent, IsPlannedFor, ToldPass, GoesOn, Line, news_lines};

use crate::lines::{NewsLine, say_news};
use crate::roster::Roster;
use crate::span::{first_time, last_time, narrowed};
use crate::tally::Tally;
use event_store::{Desk, Naming, Reader};
use mirror_core::{SyncFault, Synced};
use mirror_settings::{Settings, SettingsKey};
use offer_table::RelaySet;
use session_run::{Compared, Heard, Host, Nowhere, Progress, compare, fetch_rounds};
use sharing::SLOTS;
use slices::{Slice, Slices};
use std::alloc::{AllocError, Global};
use std::io::Write;
use std::rt::Clock;
use std::sync::{Mutex, Wait};
use store_run::{Keeping, Refusal};

/// The number of the fault that more is listed than can be told at once.
const NEED_FULL: u8 = 4;

/// The number of the fault that a relay stopped.
const STOPPED: u8 = 1;

/// What a slice came to.
#[derive(Clone, Copy)]
pub enum Outcome {
    /// It was compared, and what was planned was fetched.
    Went(Tally),
    /// It is too large: it can be halved behind this time.
    TooLarge(u64),
    /// No relay was there to compare it with.
    GivenUp,
}

/// What comparing a slice came to.
#[derive(Drop)]
enum Attempt {
    /// There is a plan.
    Planned(Synced),
    /// It is too large, by what was heard of the relays. The time in the middle of those of the own events, if there are any.
    TooLarge(Vec<Heard>, Option<u64>),
    /// No session finished.
    Nobody,
}

/// What the fault of all sessions comes to.
fn refusal_of(fault: SyncFault) -> Refusal {
    match fault {
        SyncFault::Memory => Refusal::Memory,
        _ => Refusal::Key(SettingsKey::Relays),
    }
}

/// Whether a relay told more than a session takes.
fn is_too_much(heard: &[Heard]) -> bool {
    heard.iter().any(|heard| matches!(heard, Heard::TooMuch(_)))
}

/// Whether a session finished.
fn is_anyone_heard(heard: &[Heard]) -> bool {
    heard.iter().any(|heard| matches!(heard, Heard::Needs(_)))
}

/// Notes which relays failed.
fn note_failed(roster: &mut Roster, heard: &[Heard]) -> Result<(), AllocError> {
    for relay in 0..heard.len() {
        if let Heard::Failed(number) = heard[relay] {
            if relay < SLOTS {
                roster.fail(relay as u16, number)?;
            }
        }
    }
    Ok(())
}

/// The relay of which most ids are needed.
fn most_needed(heard: &[Heard]) -> Option<u16> {
    let mut most = 0;
    let mut found = None;
    for relay in 0..heard.len() {
        if let Heard::Needs(count) = heard[relay] {
            if relay < SLOTS && count > most {
                most = count;
                found = Some(relay as u16);
            }
        }
    }
    found
}

/// Leaves relays out of the slice of a second that is too large: those that told too much, or else the one of which most is needed.
fn set_aside(roster: &mut Roster, second: u64, heard: &[Heard]) -> Result<(), AllocError> {
    if !is_too_much(heard) {
        return match most_needed(heard) {
            Some(relay) => roster.set_aside(relay, second, NEED_FULL),
            None => Ok(()),
        };
    }
    for relay in 0..heard.len() {
        if let Heard::TooMuch(number) = heard[relay] {
            if relay < SLOTS {
                roster.set_aside(relay as u16, second, number)?;
            }
        }
    }
    Ok(())
}

/// Compares a slice with all relays but those that are left out.
fn compared<J: Naming, R: Host, P: Write + Send>(
    rt: &R,
    alloc: Global,
    settings: &Settings,
    slice: Slice,
    left_out: RelaySet,
    reader: &mut Reader<J>,
    progress: &Progress<P>,
) -> Result<Compared, Refusal>
    ensures { IfOk result (λ c. IfOk c.done (λ done. IsPlannedFor settings.now slice done.ends.items done.table done.plan)) }
{
    let filter = narrowed(alloc, &settings.filter, slice)?;
    compare(rt, alloc, settings, &filter, left_out, reader, progress)
}

/// What comparing a slice came to, where there is a plan.
fn attempt_of(done: Synced, heard: Vec<Heard>, middle: Option<u64>) -> Attempt
    ensures { IfPlanned result (λ ends table plan. (ends ≡ done.ends.items) × (table ≡ done.table) × (plan ≡ done.plan)) }
{
    if is_too_much(heard.as_slice()) {
        Attempt::TooLarge(heard, middle)
    } else if is_anyone_heard(heard.as_slice()) {
        Attempt::Planned(done)
    } else {
        Attempt::Nobody
    }
}

/// Compares a slice with the relays that are asked, and plans what is to be fetched.
fn attempted<J: Naming, R: Host, P: Write + Send>(
    rt: &R,
    alloc: Global,
    settings: &Settings,
    slice: Slice,
    roster: &mut Roster,
    reader: &mut Reader<J>,
    progress: &Progress<P>,
) -> Result<Attempt, Refusal>
    ensures { IfOk result (λ a. IfPlanned a (IsPlannedFor settings.now slice)) }
{
    let out = roster.left_out();
    let Compared {
        heard,
        middle,
        done,
    } = compared(rt, alloc, settings, slice, out, reader, progress)?;
    note_failed(roster, heard.as_slice())?;
    match done {
        Ok(done) => Ok(attempt_of(done, heard, middle)),
        Err(SyncFault::TableFull) => Ok(Attempt::TooLarge(heard, middle)),
        Err(fault) => Err(refusal_of(fault)),
    }
}

/// Fetches what was planned, and tells what became of it.
fn fetched_in<
    J: Naming + Send + Sync,
    D: Wait + Drop + Send + Sync,
    R: Host,
    P: Write + Send,
    E: Write + Send + Drop,
>(
    rt: &R,
    alloc: Global,
    settings: &Settings,
    done: Synced,
    desk: &Mutex<Desk<J, D>>,
    keeping: &Keeping<J, E>,
    progress: &Progress<P>,
) -> Result<Tally, Refusal>
    ensures { IfOk result (IsFetchedBy settings.now.rounds done.table done.plan) }
{
    let planned = done.plan.len();
    if planned == 0 {
        return Ok(Tally::none());
    }
    let mut nowhere = Nowhere;
    let counts = fetch_rounds(
        rt,
        alloc,
        settings,
        done,
        desk,
        keeping,
        &mut nowhere,
        progress,
    )?;
    Ok(Tally {
        need: planned as u64,
        given: counts.given,
        missed: counts.missed,
        left: counts.left,
    })
}

/// Notes which relays stopped while they were fetched from.
fn note_stopped<R: Wait, P>(
    rt: &R,
    roster: &mut Roster,
    progress: &Progress<P>,
) -> Result<(), AllocError> {
    for relay in progress.take_failed(rt).iter() {
        roster.fail(relay, STOPPED)?;
    }
    Ok(())
}

/// Where a slice that is too large is halved: in the middle of the own events' times where that leaves something of both parts, else
/// at the present.
fn cut_at(slice: Slice, middle: Option<u64>, now: u64) -> u64 {
    match middle {
        Some(middle) if slice.since <= middle && middle < slice.until => middle,
        _ => now,
    }
}

/// Goes through a slice: compares it, and fetches what is planned. Where it is too large and of a second alone, relays are left out
/// of it until it isn't.
pub fn settled<
    J: Naming + Send + Sync,
    D: Wait + Drop + Send + Sync,
    R: Host,
    P: Write + Send,
    E: Write + Send + Drop,
>(
    rt: &R,
    alloc: Global,
    settings: &Settings,
    slice: Slice,
    now: u64,
    roster: &mut Roster,
    reader: &mut Reader<J>,
    desk: &Mutex<Desk<J, D>>,
    keeping: &Keeping<J, E>,
    progress: &Progress<P>,
) -> Result<Outcome, Refusal>
    ensures { IfOk result (λ o. IfWent o (IsTaken settings.now slice)) }
{
    for _attempt in 0..SLOTS + 1 {
        if !roster.is_anyone_asked() {
            break;
        }
        match attempted(rt, alloc, settings, slice, roster, reader, progress)? {
            Attempt::Planned(done) => {
                let _ = progress.take_failed(rt);
                let tally = fetched_in(rt, alloc, settings, done, desk, keeping, progress)?;
                note_stopped(rt, roster, progress)?;
                return Ok(Outcome::Went(tally));
            }
            Attempt::TooLarge(heard, middle) => {
                if slice.since < slice.until {
                    return Ok(Outcome::TooLarge(cut_at(slice, middle, now)));
                }
                set_aside(roster, slice.since, heard.as_slice())?;
            }
            Attempt::Nobody => break,
        }
    }
    Ok(Outcome::GivenUp)
}

/// Goes on to the next slice, as this one came out, and tells what became of the ids so far.
fn gone_on(slices: &mut Slices, all: &Tally, outcome: Outcome) -> Tally
    requires { IsSome slices.old.next }
    ensures gone { GoesOn slices.old all.now outcome slices.new result }
    ensures less { work_left slices.new < work_left slices.old }
{
    match outcome {
        Outcome::Went(tally) => {
            slices.went_well();
            all.with(&tally)
        }
        Outcome::TooLarge(at) => {
            if !slices.halve(at) {
                slices.give_up();
            }
            *all
        }
        Outcome::GivenUp => {
            slices.give_up();
            *all
        }
    }
}

/// Asks all relays again that were left out of the slice, unless it is to be halved.
fn end_slice(roster: &mut Roster, outcome: Outcome) {
    match outcome {
        Outcome::TooLarge(_) => {}
        _ => roster.next_slice(),
    }
}

/// Tells what is new of the relays.
fn tell_news<C: Clock, W: Write>(
    clock: &C,
    alloc: Global,
    roster: &mut Roster,
    writer: &mut W,
) -> Result<(), Refusal>
    ensures { OnOk result ((lines : List Line) × Appends (W.contents writer.old) (W.contents writer.new) (news_lines lines)) }
{
    let news = roster.take_news(alloc);
    for at in 0..news.len() {
        let (relay, news) = news[at];
        say_news(clock, alloc, writer, &NewsLine { relay, news })?;
    }
    Ok(())
}

/// Goes over the times of the filter, from the newest slice to the oldest, and tells what is new of the relays.
pub fn run_pass<
    J: Naming + Send + Sync,
    D: Wait + Drop + Send + Sync,
    R: Host,
    W: Write,
    P: Write + Send,
    E: Write + Send + Drop,
>(
    rt: &R,
    alloc: Global,
    settings: &Settings,
    now: u64,
    roster: &mut Roster,
    reader: &mut Reader<J>,
    desk: &Mutex<Desk<J, D>>,
    keeping: &Keeping<J, E>,
    writer: &mut W,
    progress: &Progress<P>,
) -> Result<Tally, Refusal>
    ensures { IfOk result (ToldPass settings.now (W.contents writer.old) (W.contents writer.new)) }
{
    let mut slices = Slices::over(first_time(&settings.filter), last_time(&settings.filter));
    let mut all = Tally::none();
    while let Some(slice) = slices.next() {
        let outcome = settled(
            rt, alloc, settings, slice, now, roster, reader, desk, keeping, progress,
        )?;
        all = gone_on(&mut slices, &all, outcome);
        end_slice(roster, outcome);
        tell_news(rt, alloc, roster, writer)?;
    }
    roster.end()?;
    tell_news(rt, alloc, roster, writer)?;
    Ok(all)
}
