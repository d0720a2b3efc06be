//! Events of a file's lines that are read before others are put into a store, as by several threads side by side.
ghost use Rattle.std.specs.Prelude.{◌≡◌, ℕ, ◌+◌, ◌≤◌, IsTrue, drop, length, map, take, IfOk, OnOk, Err};
ghost use Rattle.std.specs.Arc.{arc_value};
ghost use Rattle.mirror_run.specs.Lines.{lines_of};
ghost use Rattle.event_file.specs.Lines.{HoldEvents, IsPlain, LinesTell, WrongBehind};
ghost use Rattle.event_file.specs.declared.fault.FileFault.TheVariants.{Line as line_fault, Memory as memory};

use crate::fault::FileFault;
use crate::reading::{insert_lines, next_event};
use crate::writing::is_text_of;
use event_store::{Desk, Naming};
use event_text::EventScratch;
use nostr_event::Event;
use std::alloc::{AllocError, Global};
use std::marker::Model;
use std::sync::{Arc, Wait};

/// A text, the events of its first lines, as far as each line has one that can be read, and where what is behind these lines begins.
/// Contracts see it as the text.
#[derive(Drop)]
pub struct Ahead {
    text: Vec<u8>,
    events: Vec<Arc<Event>>,
    rest: usize,
    // Whether the text is that of the events.
    plain: bool,
}

impl Model for Ahead {
    ghost use Rattle.std.specs.Prelude.{◌≡◌, ℕ, ◌+◌, ◌≤◌, List, IsTrue, drop, length, map};
    ghost use Rattle.std.specs.Arc.{arc_value};
    ghost use Rattle.mirror_run.specs.Lines.{lines_of};
    ghost use Rattle.event_log.specs.Text.{text_of};
    ghost use Rattle.event_file.specs.Lines.{HoldEvents};

    ghost Value = { List ℕ };

    ghost view = { λ a. a.text.items };

    ghost invariant = { λ a. record {
      hold : HoldEvents (lines_of a.text.items) (map arc_value a.events.items) (lines_of (drop a.rest a.text.items));
      within : length a.events.items ≤ a.rest;
      inside : a.rest ≤ length a.text.items;
      plain : IsTrue a.plain → (a.rest ≡ length a.text.items) × (a.text.items ≡ text_of (map arc_value a.events.items));
    } };
}

/// The events of a text's lines, up to the first line that is empty or has none, and how many bytes these lines are.
fn read_ahead(alloc: Global, text: &[u8]) -> Result<(Vec<Arc<Event>>, usize), AllocError>
    ensures hold { IfOk result (λ r. HoldEvents (lines_of text.now) (map arc_value r.0.items) (lines_of (drop r.1 text.now))) }
    ensures within { IfOk result (λ r. length r.0.items ≤ r.1) }
    ensures inside { IfOk result (λ r. r.1 ≤ length text.now) }
{
    let mut scratch = EventScratch::new();
    let mut events = Vec::new(alloc);
    let mut rest = text;
    while let Some((event, after)) = next_event(alloc, &mut scratch, rest) {
        events.push(event)?;
        rest = after;
    }
    Ok((events, text.len() - rest.len()))
}

impl Ahead {
    /// Reads the events of a text's lines, up to the first line that is empty or has none.
    pub fn of(alloc: Global, text: Vec<u8>) -> Result<Ahead, AllocError>
        ensures { IfOk result (λ a. a ≡ text.items) }
    {
        let (events, rest) = read_ahead(alloc, text.as_slice())?;
        let plain = rest == text.len() && is_text_of(&text, &events);
        Ok(Ahead {
            text,
            events,
            rest,
            plain,
        })
    }

    /// The text.
    pub fn text(&self) -> &[u8]
        ensures { result.now ≡ self.now }
    {
        self.text.as_slice()
    }

    /// Whether each line is that of its event as the log writes it, and nothing else is there.
    pub fn is_plain(&self) -> bool
        ensures { IsTrue result → IsPlain self.now }
    {
        self.plain
    }
}

/// Puts the events of the lines of a text into the store, in their order, as `insert_lines` does.
pub fn insert_ahead<W: Wait, J: Naming, D: Wait + Drop>(
    rt: &W,
    alloc: Global,
    desk: &mut Desk<J, D>,
    ahead: &Ahead,
) -> Result<(), FileFault>
    ensures told { OnOk result (LinesTell (lines_of ahead.now) desk.old desk.new) }
    ensures wrong { (n : ℕ) → result ≡ Err (line_fault n) → (before : ℕ) × (n ≡ before + 1) × WrongBehind J.most before (lines_of ahead.now) desk.old desk.new }
    ensures memory { result ≡ Err memory → (before : ℕ) × LinesTell (take before (lines_of ahead.now)) desk.old desk.new }
{
    let Ok(taken) = desk.load(rt, &ahead.events) else {
        return Err(FileFault::Memory);
    };
    if taken < ahead.events.len() {
        return Err(FileFault::Line(taken + 1));
    }
    let (_, rest) = ahead.text.as_slice().split_at(ahead.rest);
    match insert_lines(rt, alloc, desk, rest) {
        Ok(()) => Ok(()),
        Err(FileFault::Line(line)) => Err(FileFault::Line(taken + line)),
        Err(FileFault::Memory) => Err(FileFault::Memory),
    }
}
