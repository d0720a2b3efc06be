//! Writing events as lines.
ghost use Rattle.std.specs.Prelude.{◌≡◌, ◌++◌, IsTrue, IfSome, OnOk, map};
ghost use Rattle.std.specs.Arc.{arc_value};
ghost use Rattle.std.specs.Io.KnownBytes.{Appends};
ghost use Rattle.mirror_run.specs.Waiting.{Sends};
ghost use Rattle.event_log.specs.Text.{line_of, text_of};

use event_list::EventList;
use mirror_run::waiting::{put, send};
use nostr_event::Event;
use std::alloc::Global;
use std::io;
use std::io::Write;
use std::sync::Arc;

/// How many bytes wait before they are written.
const WAITING: usize = 1 << 16;

/// Writes an event's line: the text that it keeps, and a line feed.
fn write_line<W: Write>(out: &mut W, wait: &mut Vec<u8>, event: &Arc<Event>) -> io::Result<()>
    ensures { OnOk result (Sends (W.contents out.old) wait.old.items (W.contents out.new) wait.new.items (line_of (arc_value event.now))) }
{
    put(out, wait, event.text().as_bytes())?;
    put(out, wait, b"\n")?;
    Ok(())
}

/// Writes all lines.
fn write_all<W: Write>(out: &mut W, wait: &mut Vec<u8>, events: &EventList) -> io::Result<()>
    ensures { OnOk result (Sends (W.contents out.old) wait.old.items (W.contents out.new) wait.new.items (text_of events.now)) }
{
    for place in 0..events.len() {
        write_line(out, wait, events.get(place))?;
    }
    Ok(())
}

/// Writes events, each as compact JSON on a line of its own, in their order. Want of memory is an error of its kind.
pub fn write_lines<W: Write>(alloc: Global, out: &mut W, events: &EventList) -> io::Result<()>
    ensures { OnOk result (Appends (W.contents out.old) (W.contents out.new) (text_of events.now)) }
{
    let mut wait = Vec::with_capacity(alloc, WAITING)?;
    write_all(out, &mut wait, events)?;
    send(out, &mut wait)?;
    out.flush()
}

/// The bytes behind an event's line, with which the text begins.
fn behind_line<'a>(text: &'a [u8], event: &Arc<Event>) -> Option<&'a [u8]>
    ensures { IfSome result (λ rest. text.now ≡ line_of (arc_value event.now) ++ rest.now) }
{
    let rest = text.strip_prefix(event.text().as_bytes())?;
    rest.strip_prefix(b"\n")
}

/// Whether the text is that of the events: the line of each, and nothing else.
pub fn is_text_of(text: &[u8], events: &[Arc<Event>]) -> bool
    ensures { IsTrue result → text.now ≡ text_of (map arc_value events.now) }
{
    let mut rest = text;
    for place in 0..events.len() {
        match behind_line(rest, &events[place]) {
            Some(after) => rest = after,
            None => return false,
        }
    }
    rest.is_empty()
}
