//! The one who inserts.
ghost use Rattle.std.specs.Prelude.{◌≡◌, ◌<◌, ◌≤◌, not, false, Some, [], ◌∷◌, ◌++◌, length, map, take, IfOk, IfErr, OnErr, if◌then◌else◌};
ghost use Rattle.std.specs.Arc.{arc_value};
ghost use Rattle.event_table.specs.Events.{has_id, with_events, EndsRightly};
ghost use Rattle.event_store.specs.Events.{placings};
ghost use Rattle.event_store.specs.Faults.{RefusesRightly};
ghost use mathlib.Core.List.{IsPrefix};

use crate::blank::{Front, Head};
use crate::name::Naming;
use crate::placed::Placed;
use crate::reader::Reader;
use crate::rule::Pen;
use crate::shown::Shown;
use crate::steps::publish;
use core::mem::replace_with;
use event_table::EventTable;
use left_right::writer::Writer;
use nostr_event::Event;
use std::alloc::{AllocError, Global};
use std::marker::Model;
use std::mem::replace;
use std::sync::{Arc, Wait};

/// The published list, which has as many events as the store takes.
pub struct Filled<J: Naming> {
    told: Front<J>,
}

// By hand, as a derived one is proved anew wherever a value is dropped.
impl<J: Naming> Drop for Filled<J> {
    fn drop(self) {
        let Self { told: _ } = self;
    }
}

impl<J: Naming> Model for Filled<J> {
    ghost use Rattle.std.specs.Prelude.{◌≡◌, List, length};
    ghost use Rattle.nostr_event.specs.EventView.{EventView};

    ghost Value = { List EventView };

    ghost view = { λ f. f.told };

    ghost invariant = { λ f. length f.told ≡ J.most };
}

impl<J: Naming> Filled<J> {
    fn new(told: Front<J>) -> Filled<J>
        requires { length told ≡ J.most }
        ensures { result ≡ told }
    {
        Filled { told }
    }

    /// How many events are published.
    pub fn front(&self) -> u64
        ensures count { result ≡ length self.now }
        ensures full { result ≡ J.most }
    {
        self.told.len()
    }
}

/// Why nothing was inserted.
#[derive(Drop)]
pub enum InsertFault<J: Naming> {
    /// The store has as many events as it takes, and the event is none of them.
    Full(Filled<J>),
    /// A growth was refused.
    Memory,
}

/// Where events are put in. Contracts see it as the published list.
pub struct Desk<J: Naming, R: Wait + Drop> {
    pen: Pen<J>,
    head: Head<J>,
    most: usize,
    alloc: Global,
    rt: R,
    // What was published before, until it is dropped where nobody waits for it.
    older: Option<Arc<EventTable>>,
}

impl<J: Naming, R: Wait + Drop> Model for Desk<J, R> {
    ghost use Rattle.std.specs.Prelude.{◌≡◌, ◌≤◌, List, length};
    ghost use Rattle.nostr_event.specs.EventView.{EventView};
    ghost use Rattle.event_store.specs.History.{IsLevel};

    ghost Value = { List EventView };

    ghost view = { λ d. d.pen.desk.shown.value.list };

    // All that was added to the history is published, so that the next event can be added.
    ghost invariant = { λ d. (d.pen.desk.shown.value.book ≡ J.book) × (length d.pen.desk.shown.value.list ≤ d.most) × (d.most ≡ J.most) × (d.most ≤ 1000000) × IsLevel d.head d.pen.desk.shown.value.list };
}

/// Ends the readers, whose pins answer `Gone` from then on.
impl<J: Naming, R: Wait + Drop> Drop for Desk<J, R> {
    fn drop(self) {
        let Self {
            pen,
            head: _,
            most: _,
            alloc: _,
            rt,
            older: _,
        } = self;
        drop(pen.take(&rt));
    }
}

impl<J: Naming, R: Wait + Drop> Desk<J, R> {
    pub(crate) fn open(
        rt: R,
        alloc: Global,
        head: Head<J>,
        front: &Front<J>,
        readers: usize,
        most: usize,
    ) -> Result<Desk<J, R>, AllocError>
        requires most { (most ≡ J.most) × (most ≤ 1000000) }
        requires readers { (0 < readers) × (readers ≤ 1024) }
        requires head { head ≡ Some 0 }
        requires front { front.now ≡ [] }
        ensures { IfOk result (λ d. d ≡ []) }
    {
        let state = Arc::new(alloc, EventTable::new(alloc)?)?;
        let first = Shown::new(state, front.again().into_mark());
        let second = first.again()?;
        let third = first.again()?;
        let pen = Writer::new(alloc, first, second, readers)?;
        // The log of the two copies grows here once, and never in an insert.
        let (pen, done) = publish(pen, &rt, third);
        let desk = Desk {
            pen,
            head,
            most,
            alloc,
            rt,
            older: None,
        };
        done?;
        Ok(desk)
    }

    /// A reader that has seen nothing.
    pub(crate) fn reader(&self, front: &Front<J>) -> Result<Reader<J>, AllocError>
        ensures { IfOk result (λ r. r ≡ front.now) }
    {
        let side = self.pen.factory().reader()?;
        Ok(Reader::new(side, front.again()))
    }

    /// What was published when this was last called, if it was. The desk holds what is published now, so that an insert takes nothing
    /// of it apart: whoever calls this before an insert and drops it once others may insert has that done meanwhile.
    pub fn replaced(&mut self) -> Result<Option<Arc<EventTable>>, AllocError>
        ensures { self.new ≡ self.old }
    {
        let now = Arc::try_clone(self.pen.published().state())?;
        Ok(replace(&mut self.older, Some(now)))
    }

    /// Publishes the event behind all others, unless its id is published already. After a fault nothing has changed, and the
    /// event is handed back.
    pub fn insert<W: Wait>(
        &mut self,
        rt: &W,
        event: Arc<Event>,
    ) -> Result<Placed<J>, (InsertFault<J>, Arc<Event>)>
        ensures placed { IfOk result (λ p. (p.id ≡ (arc_value event).id) × (p.list ≡ self.new) × (p.fresh ≡ not (has_id p.id self.old))) }
        ensures list { IfOk result (λ p. self.new ≡ (if p.fresh then self.old ++ arc_value event ∷ [] else self.old)) }
        ensures refused { IfErr result (λ e. (e.1 ≡ event) × (self.new ≡ self.old) × RefusesRightly J.most (arc_value event) self.old e.0) }
    {
        let shown = self.pen.published();
        let state = shown.state();
        if state.has(&event.id()) {
            return Ok(Placed::new(event.id(), false, Front::of(shown.mark().again())));
        }
        if state.events().len() >= self.most {
            let filled = Filled::new(Front::of(shown.mark().again()));
            return Err((InsertFault::Full(filled), event));
        }
        match self.put(rt, &event) {
            Ok(front) => Ok(Placed::new(event.id(), true, front)),
            Err(_) => Err((InsertFault::Memory, event)),
        }
    }

    /// Publishes at once, in their order and behind all others, those of the events that are new: an event is passed over whose id
    /// is published already, or stands before it in the list. It ends before the first new one for which there is no room, and
    /// says how many of the list it took. After a fault nothing has changed.
    pub fn insert_all<W: Wait>(
        &mut self,
        rt: &W,
        events: &[Arc<Event>],
    ) -> Result<usize, AllocError>
        ensures list { IfOk result (λ n. self.new ≡ with_events (take n (map arc_value events.now)) self.old) }
        ensures room { IfOk result (λ _. length self.new ≤ J.most) }
        ensures ends { IfOk result (λ n. EndsRightly J.most (map arc_value events.now) n self.new) }
        ensures err { OnErr result (self.new ≡ self.old) }
    {
        let placed = self.insert_each(rt, events)?;
        Ok(placed.len())
    }

    /// Publishes as `insert_all` does. What finds events by other than their ids gets these only with the next `insert`, or by
    /// `index`, so that many calls cost less in all.
    pub fn load<W: Wait>(&mut self, rt: &W, events: &[Arc<Event>]) -> Result<usize, AllocError>
        ensures list { IfOk result (λ n. self.new ≡ with_events (take n (map arc_value events.now)) self.old) }
        ensures room { IfOk result (λ _. length self.new ≤ J.most) }
        ensures ends { IfOk result (λ n. EndsRightly J.most (map arc_value events.now) n self.new) }
        ensures err { OnErr result (self.new ≡ self.old) }
    {
        let state = self.pen.published().state();
        let (state, fresh) = state.with_all(self.alloc, events, self.most)?;
        let _ = self.show(rt, state)?;
        Ok(fresh.len())
    }

    /// Has all that is published found as quickly as what was inserted.
    pub fn index<W: Wait>(&mut self, rt: &W) -> Result<(), AllocError>
        ensures { self.new ≡ self.old }
    {
        let state = self.pen.published().state().share()?;
        let state = state.indexed(self.alloc)?;
        let _ = self.show(rt, state)?;
        Ok(())
    }

    /// Publishes as `insert_all` does, and tells of each event that it took that it is published, and whether it is new: it isn't
    /// where its id was published before, or stands before it in the list.
    pub fn insert_each<W: Wait>(
        &mut self,
        rt: &W,
        events: &[Arc<Event>],
    ) -> Result<Vec<Placed<J>>, AllocError>
        ensures placed { IfOk result (λ v. v.items ≡ placings (take (length v.items) (map arc_value events.now)) self.old self.new) }
        ensures list { IfOk result (λ v. self.new ≡ with_events (take (length v.items) (map arc_value events.now)) self.old) }
        ensures room { IfOk result (λ _. length self.new ≤ J.most) }
        ensures ends { IfOk result (λ v. EndsRightly J.most (map arc_value events.now) (length v.items) self.new) }
        ensures err { OnErr result (self.new ≡ self.old) }
    {
        let state = self.pen.published().state();
        let (state, fresh) = state.with_all(self.alloc, events, self.most)?;
        let state = state.indexed(self.alloc)?;
        let mut placed = Vec::with_capacity(self.alloc, fresh.len())?;
        let front = self.show(rt, state)?;
        for at in 0..fresh.len() {
            placed.push_reserved(Placed::new(events[at].id(), fresh[at], front.again()));
        }
        Ok(placed)
    }

    fn put<W: Wait>(&mut self, rt: &W, event: &Arc<Event>) -> Result<Front<J>, AllocError>
        requires fresh { has_id (arc_value event.now).id self.old ≡ false }
        requires room { length self.old < J.most }
        ensures ok { IfOk result (λ f. (f ≡ self.new) × (self.new ≡ self.old ++ arc_value event.now ∷ [])) }
        ensures err { OnErr result (self.new ≡ self.old) }
    {
        let state = self.pen.published().state().with(self.alloc, event)?;
        self.show(rt, state)
    }

    // Publishes events that begin with those published.
    fn show<W: Wait>(&mut self, rt: &W, state: EventTable) -> Result<Front<J>, AllocError>
        requires begins { IsPrefix self.old state }
        requires room { length state ≤ J.most }
        ensures ok { IfOk result (λ f. (f ≡ self.new) × (self.new ≡ state)) }
        ensures err { OnErr result (self.new ≡ self.old) }
    {
        let shown = self.pen.published();
        let state = Arc::new(self.alloc, state)?;
        // From here on nothing takes memory.
        let mut front = Front::of(shown.mark().again());
        let start = shown.state().events().len();
        if !front.add_from(&mut self.head, state.events(), start) {
            return Err(AllocError);
        }
        let next = Shown::new(state, front.again().into_mark());
        match replace_with(&mut self.pen, next, |pen, next| publish(pen, rt, next)) {
            Ok(()) => Ok(front),
            Err(refused) => {
                self.head.lose();
                Err(refused)
            }
        }
    }
}
