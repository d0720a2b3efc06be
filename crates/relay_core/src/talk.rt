//! What a connection keeps between two messages.
ghost use Rattle.std.specs.Prelude.{◌≡◌, ◌++◌, ◌∷◌, [], false, length, bytes_eq, option_map, OnOk};
ghost use Rattle.std.specs.List.{list_any};
ghost use Rattle.relay_core.specs.Kept.{kept_of, put, session_of, without_sub, without_session};
ghost use Rattle.relay_core.specs.Due.{marked};

use crate::sessions::{self, Session};
use crate::subs::{self, Subscription};
use event_store::Snapshot;
use nostr_wire::Sub;
use std::alloc::{AllocError, Global};
use std::marker::Model;

/// Subscriptions and sessions. Contracts see them as what is `Kept`.
pub struct Talk {
    subs: Vec<Subscription>,
    sessions: Vec<Session>,
}

// By hand, as a derived one is proved anew wherever a value is dropped.
impl Drop for Talk {
    fn drop(self) {
        let Self {
            subs: _,
            sessions: _,
        } = self;
    }
}

impl Model for Talk {
    ghost use Rattle.relay_core.specs.Kept.{Kept, kept_of, InOrder};

    ghost Value = { Kept };

    ghost view = { λ t. kept_of t.subs.items t.sessions.items };

    ghost invariant = { λ t. InOrder t.subs.items };
}

impl Talk {
    pub fn new(alloc: Global) -> Talk
        ensures { result ≡ kept_of [] [] }
    {
        Talk {
            subs: Vec::new(alloc),
            sessions: Vec::new(alloc),
        }
    }

    pub fn subs(&self) -> &[Subscription]
        ensures { result.now ≡ self.now.subs }
    {
        self.subs.as_slice()
    }

    pub fn sessions_len(&self) -> usize
        ensures { result ≡ length self.now.sessions }
    {
        self.sessions.len()
    }

    /// What the session of this name has pinned.
    pub fn session(&self, name: &Sub) -> Option<&Snapshot>
        ensures { option_map (λ s. s.now) result ≡ session_of name.now self.now.sessions }
    {
        sessions::find(self.sessions.as_slice(), name)
    }

    /// Ends the subscription of this name, if there is one.
    pub fn end_sub(&mut self, name: &Sub)
        ensures { self.new ≡ without_sub name.now self.old }
    {
        subs::end(&mut self.subs, name);
    }

    /// Ends the session of this name, if there is one.
    pub fn end_session(&mut self, name: &Sub)
        ensures { self.new ≡ without_session name.now self.old }
    {
        sessions::end(&mut self.sessions, name);
    }

    /// Takes in a subscription of a new name.
    pub fn put_sub(&mut self, sub: Subscription) -> Result<(), AllocError>
        requires { list_any (λ s. bytes_eq s.name sub.name) self.old.subs ≡ false }
        ensures { OnOk result (self.new ≡ kept_of (put sub self.old.subs) self.old.sessions) }
    {
        subs::put(&mut self.subs, sub)
    }

    pub fn put_session(&mut self, session: Session) -> Result<(), AllocError>
        ensures { OnOk result (self.new ≡ kept_of self.old.subs (self.old.sessions ++ session ∷ [])) }
    {
        self.sessions.push(session)?;
        Ok(())
    }

    /// Moves the mark of each subscription to the front, unless it is further.
    pub fn mark_all(&mut self, front: usize)
        ensures { self.new ≡ kept_of (marked front self.old.subs) self.old.sessions }
    {
        subs::mark_all(self.subs.as_mut_slice(), front);
    }
}
