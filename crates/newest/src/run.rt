//! Runs: entries in order.
ghost use Rattle.std.specs.Prelude.{◌≡◌, ◌++◌, ◌∷◌, ◌≤◌, [], false, length, take, drop, All, IsPermutation, IfOk, OnOk};
ghost use Rattle.newest.specs.Newest.{rank, comes_before, NoneBefore, IsNewestFirst};

use crate::entry::Entry;
use std::alloc::{AllocError, Global};
use std::marker::Model;

/// Some entries, the newest first. Contracts see them as their list.
#[derive(Drop)]
pub struct Run {
    entries: Vec<Entry>,
}

impl Model for Run {
    ghost use Rattle.std.specs.Prelude.{List, ℕ};
    ghost use Rattle.nostr_event.specs.EventView.{EventView};
    ghost use Rattle.newest.specs.Newest.{IsNewestFirst};

    ghost Value = { List (ℕ × EventView) };

    ghost view = { λ r. r.entries.items };

    ghost invariant = { λ r. IsNewestFirst r.entries.items };
}

// Puts the entries behind the others, shared.
fn share_entries(all: &mut Vec<Entry>, entries: &[Entry]) -> Result<(), AllocError>
    ensures { OnOk result (all.new.items ≡ all.old.items ++ entries.now) }
{
    for entry in entries {
        all.push(entry.share()?)?;
    }
    Ok(())
}

// At which place an entry goes among others.
fn place_for(new: &Entry, entries: &[Entry]) -> usize
    requires { IsNewestFirst entries.now }
    ensures within { result ≤ length entries.now }
    ensures front { All (λ p. comes_before (rank new.now) (rank p) ≡ false) (take result entries.now) }
    ensures behind { NoneBefore (rank new.now) (drop result entries.now) }
{
    entries.partition_point(|entry| !new.comes_before(entry))
}

impl Run {
    /// Of no entries.
    pub fn new(alloc: Global) -> Run
        ensures { result ≡ [] }
    {
        Run {
            entries: Vec::new(alloc),
        }
    }

    /// Of entries that stand in order.
    pub fn of(entries: Vec<Entry>) -> Run
        requires { IsNewestFirst entries.items }
        ensures { result ≡ entries.items }
    {
        Run { entries }
    }

    pub fn as_slice(&self) -> &[Entry]
        ensures list { result.now ≡ self.now }
        ensures sorted { IsNewestFirst result.now }
    {
        self.entries.as_slice()
    }

    /// The entries, shared, with one more in its place. All are copied.
    pub fn with(&self, alloc: Global, entry: Entry) -> Result<Run, AllocError>
        ensures { IfOk result (λ r. IsPermutation (entry ∷ self.now) r) }
    {
        let entries = self.entries.as_slice();
        let at = place_for(&entry, entries);
        let mut all = Vec::with_capacity(alloc, entries.len() + 1)?;
        share_entries(&mut all, &entries[..at])?;
        all.push(entry)?;
        share_entries(&mut all, &entries[at..])?;
        Ok(Run { entries: all })
    }
}
