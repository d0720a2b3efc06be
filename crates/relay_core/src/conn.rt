//! One connection.
ghost use Rattle.std.specs.Prelude.{◌≡◌, ◌≤◌, ◌⊎◌, Some, None, [], false, length, map, nat_eq, IfOk, IfErr};
ghost use mathlib.Core.List.{IsPrefix};
ghost use Rattle.nostr_wire.specs.Forms.{relay_form};
ghost use Rattle.relay_core.specs.Acknowledging.{acknowledges, AcknowledgeNone};
ghost use Rattle.relay_core.specs.Kept.{kept_of, is_subscribed};
ghost use Rattle.relay_core.specs.Turns.{turn_of};
ghost use Rattle.relay_core.specs.Serving.{Serves};
ghost use Rattle.relay_core.specs.Stored.{placed_answer, fault_answer};
ghost use Rattle.relay_core.specs.Due.{CatchesUp};
ghost use Rattle.relay_core.specs.Asking.{TextAsks};
ghost use Rattle.relay_core.specs.Faults.{GoesOnBy, RefusesRightly};

use crate::catching::{Caught, catch_up};
use crate::fault::ConnFault;
use crate::limits::RelayLimits;
use crate::messages::okay;
use crate::serving::serve_text;
use crate::step::Step;
use crate::storing::StoringFault;
use crate::talk::Talk;
use event_log::Kept;
use event_store::{InsertFault, Naming, Placed, Reader};
use event_text::EventScratch;
use item_key::Id;
use nostr_wire::FromRelay;
use std::alloc::Global;
use std::marker::Model;

/// One connection, which has no subscription and no session to begin with. Contracts see it as a `Connection`.
pub struct Conn {
    alloc: Global,
    limits: RelayLimits,
    // None once a call has ended in a fault.
    talk: Option<Talk>,
}

// By hand, as a derived one is proved anew wherever a value is dropped.
impl Drop for Conn {
    fn drop(self) {
        let Self {
            alloc: _,
            limits: _,
            talk: _,
        } = self;
    }
}

impl Model for Conn {
    ghost use Rattle.relay_core.specs.Kept.{Connection};

    ghost Value = { Connection };

    ghost view = { λ c. record { limits = c.limits; kept = c.talk } };
}

impl Conn {
    pub fn new(alloc: Global, limits: RelayLimits) -> Conn
        ensures { result ≡ record { limits = limits; kept = Some (kept_of [] []) } }
    {
        Conn {
            alloc,
            limits,
            talk: Some(Talk::new(alloc)),
        }
    }

    /// Whether it has a subscription.
    pub fn has_subs(&self) -> bool
        ensures { result ≡ is_subscribed self.now.kept }
    {
        match &self.talk {
            Some(talk) => !talk.subs().is_empty(),
            None => false,
        }
    }

    /// Answers a client's text, for the events that are published now, or for what the text's session has pinned.
    pub fn serve<J: Naming>(
        &mut self,
        reader: &mut Reader<J>,
        text: &str,
    ) -> Result<Step, ConnFault>
        ensures served { IfOk result (λ s. GoesOnBy (λ old new. Serves self.old.limits reader.new text.now old (turn_of s new)) self.old.kept self.new.kept) }
        ensures none_acknowledged { IfOk result (λ s. AcknowledgeNone (map relay_form s.out.items)) }
        ensures refused { IfErr result (λ f. RefusesRightly (λ t. TextAsks self.old.limits text.now t × (reader.new ≡ reader.old)) self.old.kept f self.new.kept) }
        ensures limits { self.new.limits ≡ self.old.limits }
        ensures reader { IsPrefix reader.old reader.new }
    {
        self.serve_with(reader, &mut EventScratch::new(), text)
    }

    /// The same, in memory that is kept for the next text.
    pub fn serve_with<J: Naming>(
        &mut self,
        reader: &mut Reader<J>,
        scratch: &mut EventScratch,
        text: &str,
    ) -> Result<Step, ConnFault>
        ensures served { IfOk result (λ s. GoesOnBy (λ old new. Serves self.old.limits reader.new text.now old (turn_of s new)) self.old.kept self.new.kept) }
        ensures none_acknowledged { IfOk result (λ s. AcknowledgeNone (map relay_form s.out.items)) }
        ensures refused { IfErr result (λ f. RefusesRightly (λ t. TextAsks self.old.limits text.now t × (reader.new ≡ reader.old)) self.old.kept f self.new.kept) }
        ensures limits { self.new.limits ≡ self.old.limits }
        ensures reader { IsPrefix reader.old reader.new }
    {
        let Some(mut talk) = self.talk.take() else {
            return Err(ConnFault::Closed);
        };
        let step = serve_text(&mut talk, self.alloc, &self.limits, reader, scratch, text)?;
        self.talk = Some(talk);
        Ok(step)
    }

    /// Tells the client that its event is in the store, and kept there. The reader learns of it.
    pub fn stored<J: Naming, M>(
        &mut self,
        reader: &mut Reader<J>,
        placed: &Placed<J>,
        kept: &Kept<J, M>,
    ) -> Result<FromRelay, ConnFault>
        requires kept { length placed.now.list ≤ length kept.now }
        ensures answer { IfOk result (λ m. relay_form m ≡ placed_answer placed.now.id placed.now.fresh) }
        ensures learnt { IfOk result (λ _. IsPrefix placed.now.list reader.new) }
        ensures kept { IfOk result (λ _. GoesOnBy (λ old new. new ≡ old) self.old.kept self.new.kept) }
        ensures refused { IfErr result (λ f. RefusesRightly (λ _. ⊥) self.old.kept f self.new.kept) }
        ensures limits { self.new.limits ≡ self.old.limits }
        ensures reader { IsPrefix reader.old reader.new }
    {
        let Some(talk) = self.talk.take() else {
            return Err(ConnFault::Closed);
        };
        reader.learn(placed);
        let text = if placed.is_fresh() {
            ""
        } else {
            "duplicate: already have this event"
        };
        let Ok(message) = okay(self.alloc, placed.id(), true, text) else {
            return Err(ConnFault::Memory);
        };
        self.talk = Some(talk);
        Ok(message)
    }

    /// Tells the client why its event isn't in the store, or isn't kept there.
    pub fn unstored<J: Naming>(
        &mut self,
        id: Id,
        fault: &StoringFault<J>,
    ) -> Result<FromRelay, ConnFault>
        ensures answer { IfOk result (λ m. relay_form m ≡ fault_answer id fault.now) }
        ensures not_acknowledged { IfOk result (λ m. acknowledges (relay_form m) ≡ false) }
        ensures kept { IfOk result (λ _. GoesOnBy (λ old new. new ≡ old) self.old.kept self.new.kept) }
        ensures refused { IfErr result (λ f. RefusesRightly (λ _. ⊥) self.old.kept f self.new.kept) }
        ensures limits { self.new.limits ≡ self.old.limits }
    {
        let Some(talk) = self.talk.take() else {
            return Err(ConnFault::Closed);
        };
        let text = match fault {
            StoringFault::Refused(InsertFault::Full(_)) => "error: the store is full",
            StoringFault::Refused(InsertFault::Memory) => "error: out of memory",
            StoringFault::Unkept => "error: the events file can't be written",
        };
        let Ok(message) = okay(self.alloc, id, false, text) else {
            return Err(ConnFault::Memory);
        };
        self.talk = Some(talk);
        Ok(message)
    }

    /// What was published since the last time, each event once to each subscription with a filter that matches it: in the order
    /// of publishing, and for each event in the byte order of the subscriptions' names. Where that is much it comes in several calls.
    pub fn catch_up<J: Naming>(&mut self, reader: &mut Reader<J>) -> Result<Caught, ConnFault>
        ensures caught { IfOk result (λ c. GoesOnBy (CatchesUp reader.new c.front (map relay_form c.out.items)) self.old.kept self.new.kept) }
        ensures none_acknowledged { IfOk result (λ c. AcknowledgeNone (map relay_form c.out.items)) }
        ensures all { IfOk result (λ c. c.is_all ≡ nat_eq c.front (length reader.new)) }
        ensures refused { IfErr result (λ f. RefusesRightly (λ _. reader.new ≡ reader.old) self.old.kept f self.new.kept) }
        ensures limits { self.new.limits ≡ self.old.limits }
        ensures reader { IsPrefix reader.old reader.new }
    {
        let Some(mut talk) = self.talk.take() else {
            return Err(ConnFault::Closed);
        };
        let caught = catch_up(&mut talk, self.alloc, reader)?;
        self.talk = Some(talk);
        Ok(caught)
    }
}
