//! The log of a store.
ghost use Rattle.std.specs.Prelude.{◌≡◌, ◌≤◌, true, false, length, IfOk, IfSome, OnOk, OnErr, MatchResult};
ghost use mathlib.Core.List.{IsPrefix};
ghost use Rattle.event_log.specs.Media.{Goes, Anyhow};
ghost use Rattle.event_log.specs.Logs.{HoldsAll, HasText, HasTorn, Lasts};

use crate::kept::Kept;
use crate::lines::write_from;
use crate::medium::Medium;
use event_list::EventList;
use event_store::{Front, Naming, Reader};
use std::alloc::Global;
use std::io;
use std::io::ErrorKind;
use std::marker::Model;

/// The lines of a store's events on a medium, to which those that are published further are appended. After a fault the medium is
/// cut back to lines that can be trusted, and the lines behind these are written anew. Contracts see it as `Logged`.
pub struct Log<J: Naming, M: Medium> {
    medium: M,
    // Whether lines last before they count as kept.
    is_eager: bool,
    // Whose lines the medium has, and how many bytes these are.
    front: Front<J>,
    len: u64,
    // Those of them that last.
    safe: Front<J>,
    safe_len: u64,
    // Whether anything may stand behind the lines.
    is_torn: bool,
    // Where lines are put together.
    text: Vec<u8>,
}

// By hand, as a derived one is proved anew wherever a value is dropped.
impl<J: Naming, M: Medium + Drop> Drop for Log<J, M> {
    fn drop(self) {
        let Self {
            medium: _,
            is_eager: _,
            front: _,
            len: _,
            safe: _,
            safe_len: _,
            is_torn: _,
            text: _,
        } = self;
    }
}

impl<J: Naming, M: Medium> Model for Log<J, M> {
    ghost use Rattle.std.specs.Prelude.{IfSome};
    ghost use mathlib.Core.List.{IsPrefix};
    ghost use Rattle.event_log.specs.Logs.{Logged, HoldsLines};

    ghost Value = { Logged M };

    ghost view = { λ l. record { medium = l.medium; events = l.front; safe = l.safe; torn = l.is_torn; eager = l.is_eager } };

    ghost invariant = { λ l. IsPrefix l.safe l.front × IfSome (M.held l.medium) (HoldsLines l.is_torn l.front l.len l.safe l.safe_len) };
}

impl<J: Naming, M: Medium> Log<J, M> {
    /// The log of a medium that has the lines of these events and nothing else, which are so many bytes. Where it is eager, lines
    /// that are appended last before they count as kept; else once `settle` is called.
    pub fn new(alloc: Global, medium: M, front: Front<J>, len: u64, is_eager: bool) -> Log<J, M>
        requires { IfSome (M.held medium) (HoldsAll front len) }
        ensures { result ≡ record { medium = medium; events = front; safe = front; torn = false; eager = is_eager } }
    {
        let safe = front.again();
        Log {
            medium,
            is_eager,
            front,
            len,
            safe,
            safe_len: len,
            is_torn: false,
            text: Vec::new(alloc),
        }
    }

    // Cuts off what may stand behind the lines.
    fn mend(&mut self) -> io::Result<()>
        ensures mended { OnOk result (self.new.torn ≡ false) }
        ensures same { (self.new.events ≡ self.old.events) × (self.new.safe ≡ self.old.safe) × (self.new.eager ≡ self.old.eager) }
        ensures known { Goes Anyhow (M.held self.old.medium) (M.held self.new.medium) }
        ensures torn { Goes (HasTorn self.new.events) (M.held self.old.medium) (M.held self.new.medium) }
        ensures begins { IsPrefix self.old.safe self.old.events }
    {
        if self.is_torn {
            self.medium.cut(self.len)?;
            self.is_torn = false;
        }
        Ok(())
    }

    // Writes the lines of those of the events that it lacks.
    fn write(&mut self, front: &Front<J>, events: &EventList) -> io::Result<()>
        requires whole { self.old.torn ≡ false }
        requires events { events.now ≡ front.now }
        ensures whole { OnOk result (self.new.torn ≡ false) }
        ensures all { OnOk result (IsPrefix front.now self.new.events) }
        ensures grows { IsPrefix self.old.events self.new.events }
        ensures same { (self.new.safe ≡ self.old.safe) × (self.new.eager ≡ self.old.eager) }
        ensures known { Goes Anyhow (M.held self.old.medium) (M.held self.new.medium) }
        ensures torn { OnErr result (Goes (HasTorn self.new.events) (M.held self.old.medium) (M.held self.new.medium)) }
        ensures text { OnOk result (Goes (HasText self.new.events) (M.held self.old.medium) (M.held self.new.medium)) }
    {
        if front.len() <= self.front.len() {
            front.compare(&self.front);
            return Ok(());
        }
        self.front.compare(front);
        let start = self.front.len() as usize;
        self.is_torn = true;
        let count = write_from(&mut self.medium, &mut self.text, events, start)?;
        let Some(len) = self.len.checked_add(count) else {
            return Err(io::Error::from(ErrorKind::FileTooLarge));
        };
        self.len = len;
        self.front = front.again();
        self.is_torn = false;
        Ok(())
    }

    /// All lines last. Where that can't be told, those behind the last that do are not trusted: they are written anew the next
    /// time that something is appended.
    pub fn settle(&mut self) -> io::Result<()>
        ensures lasts { OnOk result (Goes (Lasts self.new.events) (M.held self.old.medium) (M.held self.new.medium)) }
        ensures text { OnOk result (Goes (HasText self.new.events) (M.held self.old.medium) (M.held self.new.medium)) }
        ensures events { OnOk result (self.new.events ≡ self.old.events) }
        ensures torn { OnErr result (Goes (HasTorn self.new.events) (M.held self.old.medium) (M.held self.new.medium)) }
        ensures left { OnErr result (IsPrefix self.old.safe self.new.events) }
        ensures safe { IsPrefix self.old.safe self.new.safe }
        ensures eager { self.new.eager ≡ self.old.eager }
    {
        self.mend()?;
        if self.front.len() <= self.safe.len() {
            return Ok(());
        }
        let synced = self.medium.sync();
        match synced {
            Ok(()) => {
                self.safe = self.front.again();
                self.safe_len = self.len;
                Ok(())
            }
            Err(error) => {
                self.front = self.safe.again();
                self.len = self.safe_len;
                self.is_torn = true;
                Err(error)
            }
        }
    }

    /// Appends the lines of all events that are published and that it has not, in their order, and tells what is kept: all that
    /// the reader sees. Want of memory is an error of its kind. After an error the events whose lines it has are kept no less than
    /// before, and it may be tried again.
    pub fn append(&mut self, reader: &mut Reader<J>) -> io::Result<Kept<J, M>>
        ensures kept { IfOk result (λ k. (k ≡ self.new.events) × IsPrefix reader.new k) }
        ensures grows { IfOk result (λ k. IsPrefix self.old.events k) }
        ensures text { IfOk result (λ k. Goes (HasText k) (M.held self.old.medium) (M.held self.new.medium)) }
        ensures lasts { IfOk result (λ k. self.old.eager ≡ true → Goes (Lasts k) (M.held self.old.medium) (M.held self.new.medium)) }
        ensures torn { OnErr result (Goes (HasTorn self.new.events) (M.held self.old.medium) (M.held self.new.medium)) }
        ensures left { IsPrefix self.old.safe self.new.events }
        ensures safe { IsPrefix self.old.safe self.new.safe }
        ensures eager { self.new.eager ≡ self.old.eager }
        ensures reader { IsPrefix reader.old reader.new }
    {
        self.mend()?;
        let Ok(all) = reader.all() else {
            return Err(io::Error::from(ErrorKind::OutOfMemory));
        };
        self.write(&reader.front(), all.events())?;
        if self.is_eager {
            self.settle()?;
        }
        Ok(Kept::new(self.front.again()))
    }

    /// The medium.
    pub fn into_medium(self) -> M
        ensures { result ≡ self.medium }
    {
        let Self {
            medium,
            is_eager: _,
            front: _,
            len: _,
            safe: _,
            safe_len: _,
            is_torn: _,
            text: _,
        } = self;
        medium
    }
}
