//! Puts the events of a file's lines into a store.
//!
//! The lines are read in parts. While the events of some parts are put into the store, those of the next ones are read, each part's
//! by a thread of its own, and the text of those behind them.

ghost use Rattle.std.specs.Prelude.{◌≡◌, ◌≤◌, length};
ghost use Rattle.std.specs.Thread.{IsSend, IsSync};

use crate::refusal::{Refusal, read_refusal};
use crate::workers::{Duty, run_workers};
use event_file::{Ahead, FileFault, holds_event, insert_ahead};
use event_store::{Desk, Naming, Reader};
use std::alloc::Global;
use std::io::BufRead;
use std::mem::replace;
use std::sync::Wait;
use std::thread::{Threads, available_parallelism, join};

/// So many parts, at most, are read beside those that are put in: with more, those who read would wait for the one who puts in.
const MOST_PARTS: usize = 4;

/// A part ends with the line that brings it to a sixtieth of the file, or to the first or the second of these numbers of bytes. The
/// events of larger parts are put into the store fewer times, each of which costs a copy of much of what finds their ids.
const PARTS: u64 = 60;

const LEAST_PART: u64 = 1 << 19;

const MOST_PART: u64 = 1 << 22;

/// So much room is asked for to read a part, of which only what it takes is ever touched. It is above 32 MiB, so that the system's
/// allocator (glibc's) maps it by itself and gives it back whole. Once a block of a part's size was given back, it would keep blocks
/// of up to that size to itself, and a long `sync` would have some tenth more memory.
const ROOM: usize = 33 << 20;

/// What was read of a file.
pub struct Found {
    // How many lines were read, and how many bytes they are, with their line feeds.
    lines: usize,
    pub bytes: u64,
    // Whether these are the lines of the store's events, and nothing else.
    pub is_plain: bool,
    // What stands behind the last line feed.
    pub end: End,
}

// By hand, as a derived one is proved anew wherever a value is dropped.
impl Drop for Found {
    fn drop(self) {
        let Self {
            lines: _,
            bytes: _,
            is_plain: _,
            end: _,
        } = self;
    }
}

/// What stands behind the last line feed.
#[derive(Drop)]
pub enum End {
    Nothing,
    /// An event, which was put into the store.
    Event,
    /// What holds no event.
    Torn(Vec<u8>),
}

/// Some of a file's lines, each with its line feed, and their events once these are read.
#[derive(Drop)]
struct Part {
    text: Vec<u8>,
    count: usize,
    ahead: Option<Ahead>,
}

/// Reads the events of parts.
struct Reading;

impl Duty<Part> for Reading {
    fn work<R: Wait>(&self, _waits: &R, alloc: Global, part: &mut Part) {
        let text = replace(&mut part.text, Vec::new(alloc));
        part.ahead = Ahead::of(alloc, text).ok();
    }
}

/// How long a part of a file of so many bytes is, at least.
pub fn part_of(size: u64) -> usize {
    (size / PARTS).clamp(LEAST_PART, MOST_PART) as usize
}

/// How many parts are read at once: by as many threads as there are processors, since putting in takes less than reading.
fn parts_at_once<R: Threads>(rt: &R) -> usize {
    match available_parallelism(rt) {
        Ok(processors) => processors.get().min(MOST_PARTS),
        Err(_) => 1,
    }
}

/// Reads lines behind what the text has until it is so long, and gives how many they are: none at the end.
fn read_lines<B: BufRead>(lines: &mut B, text: &mut Vec<u8>, len: usize) -> Result<usize, Refusal> {
    for count in 0..len {
        if text.len() >= len {
            return Ok(count);
        }
        match lines.read_until(b'\n', text) {
            Ok(0) => return Ok(count),
            Ok(_) => {}
            Err(error) => return Err(read_refusal(&error)),
        }
    }
    Ok(len)
}

/// How many bytes stand up to the last line feed, that one among them.
fn whole_lines(text: &[u8]) -> usize
    ensures { result ≤ length text.now }
{
    let mut len = text.len();
    while len > 0 && text[len - 1] != b'\n' {
        len -= 1;
    }
    len
}

/// The lines of a file that weren't read yet.
struct Unread<B> {
    lines: B,
    // A part is so long at least, and so many are read at once.
    len: usize,
    many: usize,
    // What stands behind the last line feed, once that was come to.
    rest: Vec<u8>,
    // Why no more can be read.
    fault: Option<Refusal>,
}

// By hand, as a derived one is proved anew wherever a value is dropped.
impl<B: Drop> Drop for Unread<B> {
    fn drop(self) {
        let Self {
            lines: _,
            len: _,
            many: _,
            rest: _,
            fault: _,
        } = self;
    }
}

impl<B: Drop> Unread<B> {
    /// What stands behind the last line feed.
    fn into_rest(self) -> Vec<u8>
        ensures { result.items ≡ self.rest.items }
    {
        let Self {
            lines: _,
            len: _,
            many: _,
            rest,
            fault: _,
        } = self;
        rest
    }
}

impl<B: BufRead> Unread<B> {
    /// The next part, if there is one.
    fn next_part(&mut self, alloc: Global) -> Result<Option<Part>, Refusal> {
        let mut text = match Vec::with_capacity(alloc, ROOM) {
            Ok(text) => text,
            Err(_) => Vec::new(alloc),
        };
        let mut count = read_lines(&mut self.lines, &mut text, self.len)?;
        let whole = whole_lines(text.as_slice());
        if whole < text.len() {
            self.rest.extend_from_slice(&text[whole..])?;
            text.truncate(whole);
            count = count.saturating_sub(1);
        }
        Ok(if count == 0 {
            None
        } else {
            Some(Part {
                text,
                count,
                ahead: None,
            })
        })
    }

    /// The next parts, so many or, at the end, fewer.
    fn read_parts(&mut self, alloc: Global) -> Result<Vec<Part>, Refusal> {
        let mut parts = Vec::with_capacity(alloc, self.many)?;
        for _ in 0..self.many {
            if !self.rest.is_empty() {
                break;
            }
            match self.next_part(alloc)? {
                Some(part) => parts.push(part)?,
                None => break,
            }
        }
        Ok(parts)
    }

    /// The same; none behind a fault.
    fn next_parts(&mut self, alloc: Global) -> Vec<Part> {
        if self.fault.is_some() {
            return Vec::new(alloc);
        }
        match self.read_parts(alloc) {
            Ok(parts) => parts,
            Err(refusal) => {
                self.fault = Some(refusal);
                Vec::new(alloc)
            }
        }
    }
}

/// How many events are published.
fn published<J: Naming>(reader: &mut Reader<J>) -> Result<usize, Refusal> {
    Ok(reader.all()?.front())
}

/// Puts the events of a part into a store, and takes in whether its lines are plain.
fn take_part<J: Naming, D: Wait + Drop, R: Wait>(
    rt: &R,
    alloc: Global,
    desk: &mut Desk<J, D>,
    reader: &mut Reader<J>,
    found: &mut Found,
    part: &Part,
) -> Result<(), Refusal> {
    let Some(ahead) = &part.ahead else {
        return Err(Refusal::Memory);
    };
    let before = published(reader)?;
    match insert_ahead(rt, alloc, desk, ahead) {
        Ok(()) => {}
        Err(FileFault::Line(line)) => return Err(Refusal::File(found.lines.saturating_add(line))),
        Err(FileFault::Memory) => return Err(Refusal::Memory),
    }
    let all = reader.all()?;
    let new = all.front().saturating_sub(before);
    found.is_plain = found.is_plain && ahead.is_plain() && new == part.count;
    found.lines = found.lines.saturating_add(part.count);
    found.bytes = found.bytes.saturating_add(ahead.text().len() as u64);
    Ok(())
}

/// The same with several parts, one behind the other.
fn take_parts<J: Naming, D: Wait + Drop, R: Wait>(
    rt: &R,
    alloc: Global,
    desk: &mut Desk<J, D>,
    reader: &mut Reader<J>,
    found: &mut Found,
    parts: &[Part],
) -> Result<(), Refusal> {
    for part in parts {
        take_part(rt, alloc, desk, reader, found, part)?;
    }
    Ok(())
}

/// Reads the events of parts, and meanwhile the text of the parts behind them.
fn read_on<R: Threads + Wait + Sync, B: BufRead + Send>(
    rt: &R,
    alloc: Global,
    parts: &mut [Part],
    unread: &mut Unread<B>,
) -> Vec<Part> {
    let (behind, ()) = join(
        rt,
        ||
            requires { IsSend B.row }
        { unread.next_parts(alloc) },
        ||
            requires { IsSync R.row }
        { run_workers(rt, alloc, &Reading, parts) },
    );
    behind
}

/// The same, and meanwhile something else.
fn read_beside<R: Threads + Wait + Sync, B: BufRead + Send, G: FnOnce() -> T, T>(
    rt: &R,
    alloc: Global,
    parts: &mut [Part],
    unread: &mut Unread<B>,
    meanwhile: G,
) -> (Vec<Part>, T)
    requires { G.pre meanwhile }
{
    join(
        rt,
        ||
            requires { IsSync R.row × IsSend B.row }
        { read_on(rt, alloc, parts, unread) },
        ||
            requires { G.pre meanwhile }
        { meanwhile() },
    )
}

/// Takes in what stands behind the last line feed. An event is put into the store. What holds none is torn, unless it is all that
/// the file has.
fn take_end<J: Naming, D: Wait + Drop, R: Wait>(
    rt: &R,
    alloc: Global,
    desk: &mut Desk<J, D>,
    reader: &mut Reader<J>,
    found: &mut Found,
    rest: Vec<u8>,
) -> Result<(), Refusal> {
    let is_event = holds_event(alloc, rest.as_slice())?;
    if !is_event && found.bytes > 0 {
        found.end = End::Torn(rest);
        return Ok(());
    }
    let mut line = rest;
    line.push(b'\n')?;
    found.end = End::Event;
    let part = Part {
        text: Vec::new(alloc),
        count: 1,
        ahead: Ahead::of(alloc, line).ok(),
    };
    take_part(rt, alloc, desk, reader, found, &part)
}

/// Puts the events of lines into a store. A part is so long at least, so that no more text is held than the parts that are put in,
/// those whose events are read meanwhile, and those behind them. What was read before a fault of reading is put in first, so that a
/// wrong line is told before it.
pub fn fill_from<J: Naming, D: Wait + Drop, R: Threads + Wait + Sync, B: BufRead + Send + Drop>(
    rt: &R,
    alloc: Global,
    desk: &mut Desk<J, D>,
    reader: &mut Reader<J>,
    lines: B,
    len: usize,
) -> Result<Found, Refusal> {
    let mut unread = Unread {
        lines,
        len,
        many: parts_at_once(rt),
        rest: Vec::new(alloc),
        fault: None,
    };
    let mut found = Found {
        lines: 0,
        bytes: 0,
        is_plain: true,
        end: End::Nothing,
    };
    let mut ready = Vec::new(alloc);
    let mut next = unread.next_parts(alloc);
    for _ in 0..u64::MAX {
        let (behind, done) = read_beside(
            rt,
            alloc,
            next.as_mut_slice(),
            &mut unread,
            || take_parts(rt, alloc, desk, reader, &mut found, ready.as_slice()),
        );
        done?;
        if next.is_empty() {
            break;
        }
        ready = next;
        next = behind;
    }
    if let Some(refusal) = unread.fault {
        return Err(refusal);
    }
    if !unread.rest.is_empty() {
        take_end(rt, alloc, desk, reader, &mut found, unread.into_rest())?;
    }
    // The parts' events weren't indexed as they were put in.
    desk.index(rt)?;
    Ok(found)
}
