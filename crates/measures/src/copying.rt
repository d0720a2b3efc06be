//! Events that are read and checked, and written again, for measuring.

use crate::reading::read;
use nostr_event::Event;
use std::alloc::Global;
use std::io;
use std::io::{BufWriter, Read, Write};

/// Reads events from standard input, one JSON object a line, and checks each id. It writes them again as compact JSON, or
/// else only how many there are. The first line that holds no event is told, and what stands before it has been written.
/// Whether there is no such line.
pub fn copy(rt: &HostRuntime, alloc: Global, is_whole: bool) -> io::Result<bool> {
    let mut text = String::new(alloc);
    rt.stdin().read_to_string(&mut text)?;
    let mut out = BufWriter::with_capacity(alloc, 65_536, rt.stdout())?;
    let copied = copied(alloc, text.as_str(), is_whole, &mut out)?;
    out.flush()?;
    match copied {
        Ok(_) if is_whole => Ok(true),
        Ok(events) => {
            println!(rt; "{events}")?;
            Ok(true)
        }
        Err(line) => {
            eprintln!(rt; "refused: line {line}")?;
            Ok(false)
        }
    }
}

/// Writes an event as compact JSON, in a line of its own.
fn put<W: Write>(alloc: Global, event: &Event, out: &mut W) -> io::Result<()> {
    let copy = event.to_json(alloc)?.to_string(alloc)?;
    out.write_all(copy.as_bytes())?;
    out.write_all(b"\n")
}

/// How many events the text holds, or the number of the first line that holds none.
fn copied<W: Write>(
    alloc: Global,
    text: &str,
    is_whole: bool,
    out: &mut W,
) -> io::Result<Result<usize, usize>> {
    let mut number = 0_usize;
    for line in text.lines() {
        number = number.saturating_add(1);
        let Some(event) = read(alloc, line) else {
            return Ok(Err(number));
        };
        if is_whole {
            put(alloc, &event, out)?;
        }
    }
    Ok(Ok(number))
}
