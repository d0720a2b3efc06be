//! All events, in runs.
ghost use Rattle.std.specs.Prelude.{◌≡◌, ◌+◌, ◌≤◌, ◌++◌, ◌∷◌, [], List, length, map, IsPermutation, IfOk};
ghost use Rattle.std.specs.Arc.{arc_value};
ghost use Rattle.nostr_event.specs.EventView.{EventView};
ghost use Rattle.std.specs.declared.alloc.Global.{Global as AGlobal};
ghost use Rattle.std.specs.declared.sync.Arc.{Arc as AnArc};
ghost use Rattle.nostr_filter.specs.Choice.{picked};
ghost use Rattle.newest.specs.Newest.{AreOf, joined};

use crate::choice::pick_from;
use crate::entry::Entry;
use crate::heads::merged;
use crate::run::Run;
use nostr_event::Event;
use nostr_filter::{Filter, Rank};
use std::alloc::{AllocError, Global};
use std::marker::Model;
use std::sync::Arc;

// So many events make a run, and so many runs of one size become one.
const FAN: usize = 8;

/// Events, each with its place in the order of publishing, in runs of which each has the newest first. It is never
/// changed: `insert` gives another one, which shares the runs with it. Contracts see it as the places with the events.
pub struct Newest {
    last: Arc<Run>,
    runs: Arc<Vec<Arc<Run>>>,
    batches: usize,
}

// By hand, as a derived one is proved anew wherever a value is dropped.
impl Drop for Newest {
    fn drop(self) {
        let Self {
            last: _,
            runs: _,
            batches: _,
        } = self;
    }
}

impl Model for Newest {
    ghost use Rattle.std.specs.Prelude.{ℕ, ◌∷◌, List, map};
    ghost use Rattle.std.specs.Arc.{arc_value};
    ghost use Rattle.nostr_event.specs.EventView.{EventView};
    ghost use Rattle.newest.specs.Newest.{joined};

    ghost Value = { List (ℕ × EventView) };

    ghost view = { λ n. joined (arc_value n.last ∷ map arc_value (arc_value n.runs).items) };
}

// How many of the runs become one with the next, which is the one of that number.
fn joining(number: usize) -> usize {
    let mut left = number;
    let mut joining = 0usize;
    for _layer in 0..8usize {
        if left % FAN != 0 {
            return joining;
        }
        left /= FAN;
        joining = joining.saturating_add(FAN - 1);
    }
    joining
}

// The runs, shared.
fn shared(alloc: Global, runs: &[Arc<Run>]) -> Result<Vec<Arc<Run>>, AllocError>
    ensures { IfOk result (λ v. map arc_value v.items ≡ map arc_value runs.now) }
{
    let mut all = Vec::with_capacity(alloc, runs.len().saturating_add(1))?;
    for run in runs {
        all.push(Arc::try_clone(run)?)?;
    }
    Ok(all)
}

// The runs with one more, made of this one and the last runs, of which as many are left as are to be kept.
fn with_run(
    alloc: Global,
    runs: &[Arc<Run>],
    kept: usize,
    run: Run,
) -> Result<Vec<Arc<Run>>, AllocError>
    requires { kept ≤ length runs.now }
    ensures { IfOk result (λ v. IsPermutation (run ++ joined (map arc_value runs.now)) (joined (map arc_value v.items))) }
{
    let (first, last) = runs.split_at(kept);
    let mut all = shared(alloc, first)?;
    let run = merged(alloc, &run, last)?;
    all.push(Arc::new(alloc, run)?)?;
    Ok(all)
}

impl Newest {
    /// No events.
    pub fn new(alloc: Global) -> Result<Newest, AllocError>
        ensures { IfOk result (λ n. n ≡ []) }
    {
        Ok(Newest {
            last: Arc::new(alloc, Run::new(alloc))?,
            runs: Arc::new(alloc, Vec::new(alloc))?,
            batches: 0,
        })
    }

    /// These and the event that is published next. It copies the last run, of fewer than eight entries. Once in eight times
    /// that becomes one of the shared runs, by itself or with the last 7, 14, 21 and so on: so there are at most seven runs of a
    /// size, of as many sizes as the number of events has digits in base 8, and each entry is copied once for each size.
    pub fn insert(
        &self,
        alloc: Global,
        place: usize,
        event: Arc<Event>,
    ) -> Result<Newest, AllocError>
        requires { place ≡ length self.now }
        ensures inserted { IfOk result (λ n. IsPermutation ((place, event.value) ∷ self.now) n) }
        ensures len { IfOk result (λ n. length n ≡ length self.now + 1) }
        // Where these are the events of a list, they are those of the list with the new one at its end.
        ensures events { (events : List EventView) → AreOf events self.now → IfOk result (λ n. AreOf (events ++ event.value ∷ []) n) }
    {
        let last = self.last.with(alloc, Entry::new(place, event))?;
        if last.as_slice().len() < FAN {
            return Ok(Newest {
                last: Arc::new(alloc, last)?,
                runs: Arc::try_clone(&self.runs)?,
                batches: self.batches,
            });
        }
        let batches = self.batches.saturating_add(1);
        let kept = self.runs.len().saturating_sub(joining(batches));
        let runs = with_run(alloc, self.runs.as_slice(), kept, last)?;
        Ok(Newest {
            last: Arc::new(alloc, Run::new(alloc))?,
            runs: Arc::new(alloc, runs)?,
            batches,
        })
    }

    /// The same, shared. It copies nothing.
    pub fn share(&self) -> Result<Newest, AllocError>
        ensures { IfOk result (λ n. n ≡ self.now) }
    {
        let last = Arc::try_clone(&self.last)?;
        let runs = Arc::try_clone(&self.runs)?;
        Ok(Newest {
            last,
            runs,
            batches: self.batches,
        })
    }

    /// What orders the events that the filter chooses: the newest that it matches, as many as the lesser of its limit and
    /// 5,000. Of each run it reads what the filter's times leave, up to the last event that is chosen.
    pub fn pick(&self, alloc: Global, filter: &Filter) -> Result<Vec<Rank>, AllocError>
        ensures { (events : List (AnArc EventView AGlobal)) → AreOf (map arc_value events) self.now → IfOk result (λ v. v.items ≡ picked events filter.now) }
    {
        pick_from(alloc, &self.last, self.runs.as_slice(), filter)
    }
}
