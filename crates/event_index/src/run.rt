//! Runs of postings in order.
ghost use Rattle.std.specs.Prelude.{◌≡◌, ◌≤◌, ◌<◌, ◌/◌, ◌++◌, ℕ, length, map, get_or, All, Contains, IsPermutation, IfOk, OnOk, flat_map};
ghost use Rattle.std.specs.Arc.{arc_value};
ghost use Rattle.event_index.specs.Postings.{joined, posting, ReadsPlaces};

use crate::postings::PLACES;
use std::alloc::{AllocError, Global};
use std::marker::Model;
use std::sync::Arc;

/// Some postings in order. Contracts see them as their list.
#[derive(Drop)]
pub struct Run {
    postings: Vec<u64>,
}

impl Model for Run {
    ghost use Rattle.std.specs.Prelude.{List, ℕ};
    ghost use Rattle.std.specs.List.Sorted.{IsNonDecreasing};

    ghost Value = { List ℕ };

    ghost view = { λ r. r.postings.items };

    ghost invariant = { λ r. IsNonDecreasing r.postings.items };
}

impl Run {
    // A run of these postings.
    fn of(postings: Vec<u64>) -> Run
        ensures { IsPermutation postings.items result }
    {
        let mut postings = postings;
        postings.sort_unstable();
        Run { postings }
    }

    fn as_slice(&self) -> &[u64]
        ensures { result.now ≡ self.now }
    {
        self.postings.as_slice()
    }

    /// How many postings there are.
    pub fn len(&self) -> usize {
        self.postings.len()
    }

    // From where on, and up to where, the postings of the mark stand.
    fn stretch(&self, mark: u64) -> (usize, usize)
        ensures within { result.1 ≤ length self.now }
        ensures whole { (k d : ℕ) → k < length self.now → get_or self.now k d / 1048576 ≡ mark → (result.0 ≤ k) × (k < result.1) }
    {
        let first = self
            .postings
            .partition_point(|posting| *posting / PLACES < mark);
        let behind = self
            .postings
            .partition_point(|posting| *posting / PLACES <= mark);
        (first, behind)
    }

    /// How many postings of the mark there are. Two searches.
    pub fn count(&self, mark: u64) -> usize {
        let (first, behind) = self.stretch(mark);
        behind.saturating_sub(first)
    }

    /// Puts the places of the mark's postings behind the others, as far as they are below the limit.
    pub fn put_places(
        &self,
        mark: u64,
        limit: usize,
        places: &mut Vec<usize>,
    ) -> Result<(), AllocError>
        requires { limit ≤ 1048576 }
        ensures { OnOk result (ReadsPlaces limit mark self.now places.old.items places.new.items) }
    {
        let (first, behind) = self.stretch(mark);
        for at in first..behind {
            let place = (self.postings[at] % PLACES) as usize;
            if place < limit {
                places.push(place)?;
            }
        }
        Ok(())
    }
}

fn shared(alloc: Global, runs: &[Arc<Run>]) -> Result<Vec<Arc<Run>>, AllocError>
    ensures { IfOk result (λ v. map arc_value v.items ≡ map arc_value runs.now) }
{
    let mut all = Vec::with_capacity(alloc, runs.len() + 1)?;
    for run in runs {
        all.push(Arc::try_clone(run)?)?;
    }
    Ok(all)
}

// Puts the runs' postings behind the others.
fn put_runs(postings: &mut Vec<u64>, runs: &[Arc<Run>]) -> Result<(), AllocError>
    ensures { OnOk result (postings.new.items ≡ postings.old.items ++ joined (map arc_value runs.now)) }
{
    for run in runs {
        postings.extend_from_slice(run.as_slice())?;
    }
    Ok(())
}

/// The runs with one more, of these postings and those of the last runs, of which as many are left as are to be kept.
pub fn with_run(
    alloc: Global,
    runs: &[Arc<Run>],
    kept: usize,
    postings: Vec<u64>,
) -> Result<Vec<Arc<Run>>, AllocError>
    requires { kept ≤ length runs.now }
    ensures { IfOk result (λ v. (p : ℕ) → Contains (joined (map arc_value runs.now) ++ postings.items) p → Contains (joined (map arc_value v.items)) p) }
{
    let (first, last) = runs.split_at(kept);
    let mut all = shared(alloc, first)?;
    let mut merged = postings;
    put_runs(&mut merged, last)?;
    all.push(Arc::new(alloc, Run::of(merged))?)?;
    Ok(all)
}
