//! The readers, which never wait.
ghost use Rattle.std.specs.Prelude.{◌≡◌, ◌⊎◌, ◌<◌, ◌≤◌, None, length, map, IfOk, IfErr, IfSome, IsPermutation};
ghost use Rattle.std.specs.Arc.{arc_value};
ghost use mathlib.Core.List.{IsPrefix};
ghost use Rattle.left_right.specs.Sides.{view};
ghost use Rattle.nostr_event.specs.EventView.{item_of};
ghost use Rattle.item_roll.specs.Parts.{IsRoll};
ghost use Rattle.event_table.specs.Events.{matching, DistinctIds};

use crate::all::AllEvents;
use crate::blank::Front;
use crate::name::Naming;
use crate::placed::Placed;
use crate::rule::Side;
use crate::snapshot::Snapshot;
use crate::steps::look;
use core::mem::replace_with;
use event_table::EventTable;
use nostr_filter::Filter;
use std::alloc::Global;
use std::marker::Model;
use std::sync::Arc;

/// Why nothing was pinned.
#[derive(Clone, Copy)]
pub enum PinFault {
    /// There was no view, as once the desk is gone. Nothing more was seen.
    Gone,
    /// A growth was refused.
    Memory,
}

/// Contracts see it as the list that it has seen or learnt.
pub struct Reader<J: Naming> {
    side: Side<J>,
    front: Front<J>,
}

// By hand, as a derived one is proved anew wherever a value is dropped.
impl<J: Naming> Drop for Reader<J> {
    fn drop(self) {
        let Self { side: _, front: _ } = self;
    }
}

impl<J: Naming> Model for Reader<J> {
    ghost use Rattle.std.specs.Prelude.{List};
    ghost use mathlib.Core.List.{IsPrefix};
    ghost use Rattle.left_right.specs.Sides.{view as client};
    ghost use Rattle.nostr_event.specs.EventView.{EventView};

    ghost Value = { List EventView };

    ghost view = { λ r. r.front };

    ghost invariant = { λ r. IsPrefix (client r.side.place).seen r.front };
}

impl<J: Naming> Reader<J> {
    pub(crate) fn new(side: Side<J>, front: Front<J>) -> Reader<J>
        requires { IsPrefix (view side.place).seen front }
        ensures { result ≡ front }
    {
        Reader { side, front }
    }

    /// The beginning of the history that it has seen or learnt.
    pub fn front(&self) -> Front<J>
        ensures { result ≡ self.now }
    {
        self.front.again()
    }

    /// Takes in what a desk told. The next pin has it.
    pub fn learn(&mut self, placed: &Placed<J>)
        ensures kept { IsPrefix self.old self.new }
        ensures learnt { IsPrefix placed.now.list self.new }
        ensures one { (self.new ≡ self.old) ⊎ (self.new ≡ placed.now.list) }
    {
        self.recall(placed.told());
    }

    /// Takes in what another reader has seen or learnt. The next pin has it.
    pub fn recall(&mut self, front: &Front<J>)
        ensures kept { IsPrefix self.old self.new }
        ensures recalled { IsPrefix front.now self.new }
        ensures one { (self.new ≡ self.old) ⊎ (self.new ≡ front.now) }
    {
        if self.front.len() < front.len() {
            self.front.compare(front);
            self.front = front.again();
        } else {
            front.compare(&self.front);
        }
    }

    /// Pins the events that match, of the list that is published. That list begins with all that was seen or learnt. The
    /// filter's limit has no part in it.
    pub fn pin(&mut self, alloc: Global, filter: &Filter) -> Result<Snapshot, PinFault>
        ensures kept { IsPrefix self.old self.new }
        ensures all { IfOk result (λ s. s.all ≡ self.new) }
        ensures distinct { IfOk result (λ s. DistinctIds s.all) }
        ensures events { IfOk result (λ s. s.events ≡ matching filter.now self.new) }
        ensures items { IfOk result (λ s. IsPermutation (map item_of s.events) s.roll) }
        ensures sorted { IfOk result (λ s. IsRoll s.roll) }
        ensures gone { IfErr result (λ f. f ≡ PinFault.Gone → self.new ≡ self.old) }
    {
        let state = self.see()?;
        Snapshot::of(alloc, state, filter).map_err(|_| PinFault::Memory)
    }

    /// The same, unless more events match than so many, which are counted first.
    pub fn pin_few(
        &mut self,
        alloc: Global,
        filter: &Filter,
        most: usize,
    ) -> Result<Option<Snapshot>, PinFault>
        ensures kept { IsPrefix self.old self.new }
        ensures many { IfOk result (λ o. o ≡ None → most < length (matching filter.now self.new)) }
        ensures few { IfOk result (λ o. IfSome o (λ s. length s.events ≤ most)) }
        ensures all { IfOk result (λ o. IfSome o (λ s. s.all ≡ self.new)) }
        ensures distinct { IfOk result (λ o. IfSome o (λ s. DistinctIds s.all)) }
        ensures events { IfOk result (λ o. IfSome o (λ s. s.events ≡ matching filter.now self.new)) }
        ensures items { IfOk result (λ o. IfSome o (λ s. IsPermutation (map item_of s.events) s.roll)) }
        ensures sorted { IfOk result (λ o. IfSome o (λ s. IsRoll s.roll)) }
        ensures gone { IfErr result (λ f. f ≡ PinFault.Gone → self.new ≡ self.old) }
    {
        let seen = self.see()?;
        Snapshot::of_few(alloc, seen, filter, most).map_err(|_| PinFault::Memory)
    }

    /// All that is published. That list begins with all that was seen or learnt. It takes no memory.
    pub fn all(&mut self) -> Result<AllEvents, PinFault>
        ensures kept { IsPrefix self.old self.new }
        ensures list { IfOk result (λ a. a ≡ self.new) }
        ensures gone { IfErr result (λ f. f ≡ PinFault.Gone → self.new ≡ self.old) }
    {
        Ok(AllEvents::of(self.see()?))
    }

    fn see(&mut self) -> Result<Arc<EventTable>, PinFault>
        ensures kept { IsPrefix self.old self.new }
        ensures seen { IfOk result (λ p. arc_value p ≡ self.new) }
        ensures gone { IfErr result (λ f. f ≡ PinFault.Gone → self.new ≡ self.old) }
    {
        let Some((front, state)) = replace_with(&mut self.side, (), |side, _| look(side)) else {
            return Err(PinFault::Gone);
        };
        if front.len() < self.front.len() {
            front.compare(&self.front);
            return Err(PinFault::Gone);
        }
        self.front.compare(&front);
        self.front = front;
        state.map_err(|_| PinFault::Memory)
    }
}
