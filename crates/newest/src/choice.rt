//! Which events filters choose.
ghost use Rattle.std.specs.Prelude.{◌≡◌, ◌≤◌, ◌++◌, ◌∷◌, ℕ, List, IfOk, OnOk, All, length, map, take};
ghost use Rattle.std.specs.Arc.{arc_value};
ghost use Rattle.std.specs.declared.alloc.Global.{Global as AGlobal};
ghost use Rattle.std.specs.declared.sync.Arc.{Arc as AnArc};
ghost use Rattle.nostr_event.specs.EventView.{EventView};
ghost use Rattle.nostr_filter.specs.Choice.{newest_first, in_order, picked, chosen};
ghost use Rattle.newest.specs.Newest.{rank, AreOf, AreApart, IsNewestFirst, IsRest, BeginsMatched, joined, hits, placed_at};

use crate::entry::Entry;
use crate::heads::head_of;
use crate::order::Newest;
use crate::rests::{from_latest, from_match};
use crate::run::Run;
use nostr_filter::{Filter, Rank, cut, put_in_order};
use std::alloc::{AllocError, Global};
use std::sync::Arc;

// What is left of the run where the entries before the first that the filter matches are passed over.
fn first_match<'a>(run: &'a Run, filter: &Filter) -> &'a [Entry]
    ensures rest { IsRest filter.now result.now run.now }
    ensures begins { BeginsMatched filter.now result.now }
{
    from_match(from_latest(run.as_slice(), filter), filter)
}

// The same of each run.
fn matching<'a>(
    alloc: Global,
    last: &'a Run,
    runs: &'a [Arc<Run>],
    filter: &Filter,
) -> Result<Vec<&'a [Entry]>, AllocError>
    ensures hits { IfOk result (λ v. hits filter.now (joined (map (λ r. r.now) v.items)) ≡ hits filter.now (joined (last.now ∷ map arc_value runs.now))) }
    ensures part { IfOk result (λ v. (n : ℕ) → placed_at n (joined (map (λ r. r.now) v.items)) ≤ placed_at n (joined (last.now ∷ map arc_value runs.now))) }
    ensures sorted { IfOk result (λ v. All IsNewestFirst (map (λ r. r.now) v.items)) }
    ensures begins { IfOk result (λ v. All (BeginsMatched filter.now) (map (λ r. r.now) v.items)) }
{
    let mut rests = Vec::with_capacity(alloc, runs.len().saturating_add(1))?;
    rests.push(first_match(last, filter))?;
    for run in runs {
        rests.push(first_match(run, filter))?;
    }
    Ok(rests)
}

// The entries that the filter matches, in order, as many as are to be had. Each list begins with one of them.
fn take_hits<'a>(
    alloc: Global,
    lists: Vec<&'a [Entry]>,
    filter: &Filter,
    most: usize,
) -> Result<Vec<&'a Entry>, AllocError>
    requires sorted { All IsNewestFirst (map (λ r. r.now) lists.items) }
    requires begins { All (BeginsMatched filter.now) (map (λ r. r.now) lists.items) }
    ensures { AreApart (joined (map (λ r. r.now) lists.entry.items)) → IfOk result (λ v. map (λ e. rank e.now) v.items ≡ take most (in_order newest_first (hits filter.now (joined (map (λ r. r.now) lists.entry.items))))) }
{
    let mut rests = lists;
    let mut found = Vec::new(alloc);
    while found.len() < most {
        let Some(head) = head_of(rests.as_slice()) else {
            return Ok(found);
        };
        found.push(head.first)?;
        rests[head.at] = from_match(head.rest, filter);
    }
    Ok(found)
}

// What orders the entries. Their events are read one behind the other, so that the memory of those that lie far apart is fetched side
// by side.
fn ranks_of(alloc: Global, entries: &[&Entry]) -> Result<Vec<Rank>, AllocError>
    ensures { IfOk result (λ v. v.items ≡ map (λ e. rank e.now) entries.now) }
{
    entries.iter().map(|entry| entry.rank()).collect(alloc)
}

/// What orders the events of these runs that the filter chooses. Of each run it reads what the filter's times leave, up to the
/// last event that is chosen.
pub fn pick_from(
    alloc: Global,
    last: &Run,
    runs: &[Arc<Run>],
    filter: &Filter,
) -> Result<Vec<Rank>, AllocError>
    ensures { (events : List (AnArc EventView AGlobal)) → AreOf (map arc_value events) (joined (last.now ∷ map arc_value runs.now)) → IfOk result (λ v. v.items ≡ picked events filter.now) }
{
    let rests = matching(alloc, last, runs, filter)?;
    let found = take_hits(alloc, rests, filter, cut(filter))?;
    ranks_of(alloc, found.as_slice())
}

/// The places of the events that the filters choose, in the order in which they are sent: each filter chooses the newest
/// that it matches, as many as the lesser of its limit and 5,000, and each event comes once.
pub fn choose(alloc: Global, filters: &[Filter], newest: &Newest) -> Result<Vec<usize>, AllocError>
    ensures { (events : List (AnArc EventView AGlobal)) → AreOf (map arc_value events) newest.now → IfOk result (λ v. v.items ≡ chosen filters.now events) }
{
    let mut all = Vec::new(alloc);
    for filter in filters {
        all.append(&mut newest.pick(alloc, filter)?)?;
    }
    put_in_order(&mut all);
    all.iter().map(|rank| rank.place).collect(alloc)
}
