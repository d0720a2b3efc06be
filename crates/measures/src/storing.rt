//! A store that events are put into and read from, for measuring.

ghost use Rattle.std.specs.Prelude.{◌≡◌};

use crate::reading::{filter, read_shared};
use event_list::EventList;
use event_store::{AllEvents, Blank, Desk, Naming, Placed, Reader, open_store};
use nostr_event::Event;
use nostr_filter::{Bytes32List, Filter};
use std::alloc::Global;
use std::io;
use std::io::{BufRead, BufReader, Write};
use std::marker::Brand;
use std::sync::{Arc, Wait};
use std::time::{CpuClock, Duration};

/// How many ids are looked up at once.
const IDS: usize = 100;

/// How often all is pinned, and so on, with the filter.
static PINS: [(&str, usize, &str); 3] = [
    ("pin all", 1_000, "{}"),
    (
        "pin a day",
        100,
        r##"{"since":1650000000,"until":1650086399}"##,
    ),
    ("pin a kind", 5, r##"{"kinds":[7]}"##),
];

/// The same for choices.
static CHOICES: [(&str, usize, &str); 2] = [
    ("choose newest", 1_000, r##"{"limit":100}"##),
    ("choose of a kind", 1_000, r##"{"kinds":[7],"limit":100}"##),
];

/// Reads events from standard input, one JSON object a line, and inserts them into a store. If it is to read the store it
/// then pins all of them, those of a hundred ids, of a day and of a kind, and chooses the newest hundred. It prints how many
/// events each of these gives, and tells on standard error how often it did it and the processor time of all in
/// microseconds. An insert that is refused is made once more, so that a run with allocations refused shows whether it left a
/// trace and whether the next one goes through. Whether nothing else was refused.
pub fn store<R: Input + Print + Eprint + CpuClock + Wait>(
    rt: &R,
    alloc: Global,
    has_reads: bool,
) -> io::Result<bool> {
    let Some(events) = read_all(alloc, BufReader::new(alloc, rt.reader())?)? else {
        eprintln!(rt; "refused: a line holds no event")?;
        return Ok(false);
    };
    if measured::<Brand, R>(rt, alloc, Blank::new(), events, has_reads).is_none() {
        eprintln!(rt; "refused: no memory")?;
        return Ok(false);
    }
    Ok(true)
}

/// The events of the lines, or none where a line holds none.
fn read_all<R: BufRead + Drop>(alloc: Global, input: R) -> io::Result<Option<Vec<Arc<Event>>>> {
    let mut events = Vec::new(alloc);
    for line in input.lines(alloc) {
        let Some(event) = read_shared(alloc, line?.as_str()) else {
            return Ok(None);
        };
        events.push(event)?;
    }
    Ok(Some(events))
}

/// Measures the inserts, and the reads where they are asked for.
fn measured<J: Naming, R: Print + Eprint + CpuClock + Wait>(
    rt: &R,
    alloc: Global,
    blank: Blank,
    events: Vec<Arc<Event>>,
    has_reads: bool,
) -> Option<()>
    requires book { blank ≡ J.book }
    requires most { J.most ≡ 1000000 }
{
    let (mut desk, mut readers) = open_store::<J, &R>(rt, alloc, blank, 1).ok()?;
    let mut reader = readers.pop()?;
    inserts(rt, alloc, &mut desk, &mut reader, events)?;
    if has_reads {
        reads(rt, alloc, &mut reader)?;
    }
    Some(())
}

/// Measures the inserts.
fn inserts<J: Naming, R: Print + Eprint + CpuClock + Wait>(
    rt: &R,
    alloc: Global,
    desk: &mut Desk<J, &R>,
    reader: &mut Reader<J>,
    events: Vec<Arc<Event>>,
) -> Option<()> {
    let times = events.len();
    let start = rt.process_cpu_time().ok()?;
    let fresh = inserted(rt, alloc, desk, reader, events);
    tell(rt, "insert", times, fresh, start)
}

/// Measures the reads.
fn reads<J: Naming, R: Print + Eprint + CpuClock + Wait>(
    rt: &R,
    alloc: Global,
    reader: &mut Reader<J>,
) -> Option<()> {
    let all = reader.all().ok()?;
    pins(rt, alloc, reader, all.events())?;
    choices(rt, alloc, &all)
}

/// How many of the events were new. An insert that is refused is made once more.
fn inserted<J: Naming, R: Wait>(
    rt: &R,
    alloc: Global,
    desk: &mut Desk<J, &R>,
    reader: &mut Reader<J>,
    events: Vec<Arc<Event>>,
) -> usize {
    let mut fresh = 0_usize;
    for event in events {
        let placed = match desk.insert(rt, event) {
            Ok(placed) => Some(placed),
            Err((_fault, event)) => insert_again(rt, alloc, desk, reader, event, fresh),
        };
        if matches!(&placed, Some(placed) if placed.is_fresh()) {
            fresh = fresh.saturating_add(1);
        }
    }
    fresh
}

/// Inserts an event whose insert was refused, unless that left a trace: as many events have to be published as before.
fn insert_again<J: Naming, R: Wait>(
    rt: &R,
    alloc: Global,
    desk: &mut Desk<J, &R>,
    reader: &mut Reader<J>,
    event: Arc<Event>,
    published: usize,
) -> Option<Placed<J>> {
    let seen = reader.all().ok()?;
    if seen.front() != published || seen.events().len() != published {
        return None;
    }
    desk.insert(rt, event).ok()
}

/// Tells what was done so often since the start, and how many events it gave.
fn tell<R: Print + Eprint + CpuClock>(
    rt: &R,
    name: &str,
    times: usize,
    found: usize,
    start: Duration,
) -> Option<()> {
    let taken = rt.process_cpu_time().ok()?.checked_sub(start)?;
    println!(rt; "{name} {found}").ok()?;
    eprintln!(rt; "{name} {times} {}", taken.as_micros()).ok()
}

/// Measures the pins, of which one is by ids of these events.
fn pins<J: Naming, R: Print + Eprint + CpuClock>(
    rt: &R,
    alloc: Global,
    reader: &mut Reader<J>,
    all: &EventList,
) -> Option<()> {
    for (name, times, text) in &PINS {
        pin(rt, alloc, reader, &filter(alloc, text)?, name, *times)?;
    }
    pin(
        rt,
        alloc,
        reader,
        &by_ids(alloc, all)?,
        "pin 100 ids",
        1_000,
    )
}

/// A filter by the ids of events that stand equally far apart.
fn by_ids(alloc: Global, events: &EventList) -> Option<Filter> {
    let mut ids = Vec::new(alloc);
    for n in 0..IDS {
        let place = events.len().wrapping_mul(n) / IDS;
        if place < events.len() {
            ids.push(events.get(place).id().0).ok()?;
        }
    }
    let mut filter = Filter::all();
    filter.ids = Some(Bytes32List::new(ids));
    Some(filter)
}

/// Measures a pin that is made so often.
fn pin<J: Naming, R: Print + Eprint + CpuClock>(
    rt: &R,
    alloc: Global,
    reader: &mut Reader<J>,
    filter: &Filter,
    name: &str,
    times: usize,
) -> Option<()> {
    let start = rt.process_cpu_time().ok()?;
    let mut found = 0;
    for _ in 0..times {
        found = reader.pin(alloc, filter).ok()?.events().len();
    }
    tell(rt, name, times, found, start)
}

/// Measures the choices of these events.
fn choices<R: Print + Eprint + CpuClock>(rt: &R, alloc: Global, all: &AllEvents) -> Option<()> {
    for (name, times, text) in &CHOICES {
        choose(rt, alloc, all, &[filter(alloc, text)?], name, *times)?;
    }
    Some(())
}

/// Measures a choice that is made so often.
fn choose<R: Print + Eprint + CpuClock>(
    rt: &R,
    alloc: Global,
    all: &AllEvents,
    filters: &[Filter],
    name: &str,
    times: usize,
) -> Option<()> {
    let start = rt.process_cpu_time().ok()?;
    let mut found = 0;
    for _ in 0..times {
        found = all.choose(alloc, filters).ok()?.len();
    }
    tell(rt, name, times, found, start)
}
