//! Reading a file of events into a store.
ghost use Rattle.std.specs.Prelude.{◌≡◌, ℕ, ◌+◌, ◌-◌, ◌<◌, ◌≤◌, List, [], ◌∷◌, length, map, take, drop, IfOk, IfSome, MatchBool, OnOk, Err};
ghost use Rattle.std.specs.Arc.{arc_value};
ghost use Rattle.nostr_event.specs.EventView.{EventView};
ghost use Rattle.mirror_run.specs.Lines.{lines_of};
ghost use Rattle.event_file.specs.Lines.{IsEventOf, LinesTell, WrongBehind, HoldEvents};
ghost use Rattle.event_file.specs.declared.fault.FileFault.TheVariants.{Line as line_fault, Memory as memory};
ghost use Rattle.event_file.specs.declared.fault.LineFault.TheVariants.{Wrong as wrong};

use crate::fault::{FileFault, LineFault};
use event_store::{Desk, Naming};
use event_text::{EventScratch, event_of_bytes};
use mirror_run::cut_line;
use nostr_event::{Event, EventFault};
use serde_json::Value;
use std::alloc::{AllocError, Global};
use std::sync::{Arc, Wait};

// As many events as are put into the store at once. Each time copies what it changes of the store's roll and maps, which is
// most of them where the events come in no order.
const BATCH: usize = 2048;

/// The event of a line that is read as a value first.
fn event_of_value(alloc: Global, line: &[u8]) -> Result<Arc<Event>, LineFault>
    ensures event { IfOk result (λ e. IsEventOf line.now (arc_value e)) }
    ensures none { result ≡ Err wrong → (e : EventView) → ¬ IsEventOf line.now e }
{
    let value = match Value::from_slice(alloc, line) {
        Ok(value) => value,
        Err(error) if error.is_memory() => return Err(LineFault::Memory),
        Err(_) => return Err(LineFault::Wrong),
    };
    match Event::from_json(alloc, &value) {
        Ok(event) => Ok(Arc::new(alloc, event)?),
        Err(EventFault::Memory) => Err(LineFault::Memory),
        Err(_) => Err(LineFault::Wrong),
    }
}

/// The event of a line.
fn event_of(alloc: Global, scratch: &mut EventScratch, line: &[u8]) -> Result<Arc<Event>, LineFault>
    ensures event { IfOk result (λ e. IsEventOf line.now (arc_value e)) }
    ensures none { result ≡ Err wrong → (e : EventView) → ¬ IsEventOf line.now e }
{
    match event_of_bytes(alloc, scratch, line) {
        Some(Ok(event)) => Ok(Arc::new(alloc, event)?),
        Some(Err(_)) => Err(LineFault::Wrong),
        None => event_of_value(alloc, line),
    }
}

/// Whether the line holds an event.
pub fn holds_event(alloc: Global, line: &[u8]) -> Result<bool, AllocError>
    ensures { IfOk result (λ b. MatchBool b ((e : EventView) × IsEventOf line.now e) ((e : EventView) → ¬ IsEventOf line.now e)) }
{
    match event_of(alloc, &mut EventScratch::new(), line) {
        Ok(_) => Ok(true),
        Err(LineFault::Wrong) => Ok(false),
        Err(LineFault::Memory) => Err(AllocError),
    }
}

/// The event of the first line, and the text behind it, unless the line is empty or its event can't be read.
pub fn next_event<'a>(
    alloc: Global,
    scratch: &mut EventScratch,
    text: &'a [u8],
) -> Option<(Arc<Event>, &'a [u8])>
    ensures next { IfSome result (λ n. HoldEvents (lines_of text.now) (arc_value n.0 ∷ []) (lines_of n.1.now)) }
    ensures shorter { IfSome result (λ n. length n.1.now < length text.now) }
    ensures behind { IfSome result (λ n. n.1.now ≡ drop (length text.now - length n.1.now) text.now) }
{
    let (line, rest) = cut_line(text)?;
    if line.is_empty() {
        return None;
    }
    match event_of(alloc, scratch, line) {
        Ok(event) => Some((event, rest)),
        Err(_) => None,
    }
}

/// An event and those of the lines behind it, as far as each has one that can be read, and the text behind these. It reads 2,048
/// at most.
fn next_events<'a>(
    alloc: Global,
    scratch: &mut EventScratch,
    first: Arc<Event>,
    text: &'a [u8],
) -> Result<(Vec<Arc<Event>>, &'a [u8]), AllocError>
    ensures hold { (lines : List (List ℕ)) → HoldEvents lines (arc_value first ∷ []) (lines_of text.now) → IfOk result (λ r. HoldEvents lines (map arc_value r.0.items) (lines_of r.1.now)) }
    ensures shorter { IfOk result (λ r. length r.0.items + length r.1.now ≤ length text.now + 1) }
    ensures some { IfOk result (λ r. 0 < length r.0.items) }
{
    let mut events = Vec::with_capacity(alloc, BATCH)?;
    events.push(first)?;
    let mut rest = text;
    for _ in 1..BATCH {
        let Some((event, after)) = next_event(alloc, scratch, rest) else {
            break;
        };
        events.push(event)?;
        rest = after;
    }
    Ok((events, rest))
}

/// Puts the event of a line and those of the lines behind it into the store, as many as are put in at once, and gives the number
/// of these lines, and the text behind them.
fn insert_next<'a, W: Wait, J: Naming, D: Wait + Drop>(
    rt: &W,
    alloc: Global,
    desk: &mut Desk<J, D>,
    line: &[u8],
    rest: &'a [u8],
) -> Result<(usize, &'a [u8]), FileFault>
    ensures told { IfOk result (λ r. LinesTell (take r.0 (line.now ∷ lines_of rest.now)) desk.old desk.new) }
    ensures left { IfOk result (λ r. lines_of r.1.now ≡ drop r.0 (line.now ∷ lines_of rest.now)) }
    ensures shorter { IfOk result (λ r. (r.0 + length r.1.now ≤ length rest.now + 1) × (length r.1.now ≤ length rest.now)) }
    ensures within { (n : ℕ) → result ≡ Err (line_fault n) → n ≤ length rest.now + 1 }
    ensures wrong { (n : ℕ) → result ≡ Err (line_fault n) → (before : ℕ) × (n ≡ before + 1) × WrongBehind J.most before (line.now ∷ lines_of rest.now) desk.old desk.new }
    ensures memory { result ≡ Err memory → desk.new ≡ desk.old }
{
    if line.is_empty() {
        return Ok((1, rest));
    }
    let mut scratch = EventScratch::new();
    let first = match event_of(alloc, &mut scratch, line) {
        Ok(event) => event,
        Err(LineFault::Wrong) => return Err(FileFault::Line(1)),
        Err(LineFault::Memory) => return Err(FileFault::Memory),
    };
    let Ok((events, left)) = next_events(alloc, &mut scratch, first, rest) else {
        return Err(FileFault::Memory);
    };
    let Ok(taken) = desk.insert_all(rt, &events) else {
        return Err(FileFault::Memory);
    };
    if taken < events.len() {
        return Err(FileFault::Line(taken + 1));
    }
    Ok((taken, left))
}

/// Puts the events of a file's lines into the store, in their order. Empty lines and repeats are passed over. After a fault
/// those of the lines before stay there.
pub fn insert_lines<W: Wait, J: Naming, D: Wait + Drop>(
    rt: &W,
    alloc: Global,
    desk: &mut Desk<J, D>,
    text: &[u8],
) -> Result<(), FileFault>
    ensures told { OnOk result (LinesTell (lines_of text.now) desk.old desk.new) }
    ensures wrong { (n : ℕ) → result ≡ Err (line_fault n) → (before : ℕ) × (n ≡ before + 1) × WrongBehind J.most before (lines_of text.now) desk.old desk.new }
    ensures memory { result ≡ Err memory → (before : ℕ) × LinesTell (take before (lines_of text.now)) desk.old desk.new }
    ensures within { (n : ℕ) → result ≡ Err (line_fault n) → n ≤ length text.now + 1 }
{
    let mut rest = text;
    let mut number = 0;
    while let Some((line, after)) = cut_line(rest) {
        match insert_next(rt, alloc, desk, line, after) {
            Ok((lines, left)) => {
                number += lines;
                rest = left;
            }
            Err(FileFault::Line(line)) => return Err(FileFault::Line(number + line)),
            Err(FileFault::Memory) => return Err(FileFault::Memory),
        }
    }
    Ok(())
}
