//! The lines of events.
ghost use Rattle.std.specs.Prelude.{◌≡◌, ◌<◌, ◌≤◌, ◌++◌, [], length, take, IfOk, OnOk, OnErr, MatchResult};
ghost use Rattle.std.specs.Arc.{arc_value};
ghost use Rattle.event_log.specs.Text.{line_of, text_of};
ghost use Rattle.event_log.specs.Media.{Goes, Takes, TakesPart};
ghost use Rattle.event_log.specs.Logs.{TakesLines, TakesBegun};

use crate::medium::Medium;
use event_list::EventList;
use nostr_event::Event;
use std::alloc::AllocError;
use std::io;
use std::io::ErrorKind;
use std::sync::Arc;

/// Lines are written once they are so many bytes together.
pub const MANY: usize = 1 << 16;

/// Puts an event's line behind the text: the text that it keeps, and a line feed.
fn put_line(text: &mut Vec<u8>, event: &Arc<Event>) -> Result<(), AllocError>
    ensures { OnOk result (text.new.items ≡ text.old.items ++ line_of (arc_value event.now)) }
{
    text.extend_from_slice(event.text().as_bytes())?;
    text.push(b'\n')?;
    Ok(())
}

/// Puts lines of the events from a place on behind one another, until they are many bytes, and tells the place behind them.
pub fn put_many(text: &mut Vec<u8>, events: &EventList, start: usize) -> Result<usize, AllocError>
    requires empty { text.old.items ≡ [] }
    requires some { start < length events.now }
    ensures further { IfOk result (λ n. (start < n) × (n ≤ length events.now)) }
    ensures lines { IfOk result (λ n. text_of (take n events.now) ≡ text_of (take start events.now) ++ text.new.items) }
{
    for place in start..events.len() {
        put_line(text, events.get(place))?;
        if text.len() >= MANY {
            return Ok(place + 1);
        }
    }
    Ok(events.len())
}

/// Writes all bytes. After a fault a beginning of them was written.
fn write_all<M: Medium>(medium: &mut M, bytes: &[u8]) -> io::Result<()>
    ensures { MatchResult result (λ _. Goes (Takes bytes.now) (M.held medium.old) (M.held medium.new)) (λ _. Goes (TakesPart bytes.now) (M.held medium.old) (M.held medium.new)) }
{
    let mut rest = bytes;
    while !rest.is_empty() {
        match medium.write(rest) {
            Ok(0) => return Err(io::Error::from(ErrorKind::WriteZero)),
            Ok(count) => rest = &rest[count..],
            Err(error) => return Err(error),
        }
    }
    Ok(())
}

/// Writes the lines of the events from a place on, and tells how many bytes these are. They are put together in `text`. After a fault a
/// beginning of them was written.
pub fn write_from<M: Medium>(
    medium: &mut M,
    text: &mut Vec<u8>,
    events: &EventList,
    start: usize,
) -> io::Result<u64>
    requires { start ≤ length events.now }
    ensures { MatchResult result (λ n. Goes (TakesLines events.now start n) (M.held medium.old) (M.held medium.new)) (λ _. Goes (TakesBegun events.now start) (M.held medium.old) (M.held medium.new)) }
{
    let mut place = start;
    let mut count: u64 = 0;
    while place < events.len() {
        text.clear();
        place = put_many(text, events, place)?;
        let Some(sum) = count.checked_add(text.len() as u64) else {
            return Err(io::Error::from(ErrorKind::FileTooLarge));
        };
        count = sum;
        write_all(medium, text.as_slice())?;
    }
    Ok(count)
}
