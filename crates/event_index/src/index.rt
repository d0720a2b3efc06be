//! The index: runs of postings, of which some are merged whenever there are many of one size.
ghost use Rattle.std.specs.Prelude.{◌≡◌, ◌≤◌, ◌<◌, ◌+◌, ◌^◌, ◌++◌, [], ℕ, List, length, map, All, IfOk, IfSome, OnOk};
ghost use Rattle.std.specs.Arc.{arc_value};
ghost use Rattle.nostr_event.specs.EventView.{EventView};
ghost use Rattle.nostr_filter.specs.declared.filter.Filter.{Filter};
ghost use Rattle.event_index.specs.Marks.{AreMarksOf};
ghost use Rattle.event_index.specs.Postings.{Covers, HoldMatching, ReadsPlaces, joined};

use crate::both::common;
use crate::conditions::{Marks, conditions};
use crate::postings::postings_of;
use crate::run::{Run, with_run};
use nostr_event::Event;
use nostr_filter::Filter;
use std::alloc::{AllocError, Global};
use std::marker::Model;
use std::sync::Arc;

/// Events are put in this many at a time.
pub const BATCH: usize = 32;

// So many runs of about one size become one.
const FAN: usize = 16;

// Of runs of about one size none has more than so many times the postings of another.
const SPREAD: usize = 4;

// Places are looked for among those of another condition that finds at most so many times as many, by at most a search for so many
// of them.
const WIDE: usize = 16;

// Places of fewer events than one in so many are not.
const SPARSE: usize = 256;

/// Where the first events of a list stand, by what filters ask for. It is never changed.
pub struct Index {
    runs: Vec<Arc<Run>>,
    count: usize,
}

// By hand, as a derived one is proved anew wherever a value is dropped.
impl Drop for Index {
    fn drop(self) {
        let Self { runs: _, count: _ } = self;
    }
}

impl Model for Index {
    ghost use Rattle.std.specs.Prelude.{◌≤◌, map};
    ghost use Rattle.std.specs.Arc.{arc_value};
    ghost use Rattle.event_index.specs.Postings.{Covered};

    ghost Value = { Covered };

    ghost view = { λ x. record { runs = map arc_value x.runs.items; count = x.count } };

    ghost invariant = { λ x. x.count ≤ 1048576 };
}

// How many of the runs stay where one of so many postings comes behind them: it becomes one with the last of them, as long as
// there are enough of about its size.
fn kept(runs: &[Arc<Run>], postings: usize) -> usize
    ensures { result ≤ length runs.now }
{
    let mut kept = runs.len();
    let mut size = postings;
    for _layer in 0..8usize {
        if kept < FAN - 1 || runs[kept - (FAN - 1)].len() / SPREAD > size {
            return kept;
        }
        kept -= FAN - 1;
        size = size.saturating_mul(FAN);
    }
    kept
}

// Puts the places of the mark's postings behind the others.
fn put_places(
    runs: &[Arc<Run>],
    mark: u64,
    limit: usize,
    places: &mut Vec<usize>,
) -> Result<(), AllocError>
    requires { limit ≤ 1048576 }
    ensures { OnOk result (ReadsPlaces limit mark (joined (map arc_value runs.now)) places.old.items places.new.items) }
{
    for run in runs {
        run.put_places(mark, limit, places)?;
    }
    Ok(())
}

impl Index {
    /// Of no event.
    pub fn new(alloc: Global) -> Index
        ensures { Covers [] result }
    {
        Index {
            runs: Vec::new(alloc),
            count: 0,
        }
    }

    /// How many events are covered, the first of the list.
    pub fn count(&self) -> usize
        ensures { result ≡ self.now.count }
    {
        self.count
    }

    /// The index of more events, those that stand behind the covered ones. With `BATCH` at a time there are at most 60 runs, and
    /// each posting is sorted four times.
    pub fn grown(&self, alloc: Global, events: &[Arc<Event>]) -> Result<Index, AllocError>
        requires { self.now.count + length events.now ≤ 2 ^ 20 }
        ensures { (covered : List EventView) → Covers covered self.now → IfOk result (λ x. Covers (covered ++ map arc_value events.now) x) }
    {
        let postings = postings_of(alloc, events, self.count)?;
        let runs = self.runs.as_slice();
        let kept = kept(runs, postings.len());
        Ok(Index {
            runs: with_run(alloc, runs, kept, postings)?,
            count: self.count + events.len(),
        })
    }

    // How many searches it takes to look the marks up, and how many postings they find; it ends above so many.
    fn price(&self, marks: &[u64], most: usize) -> usize {
        let mut price = 0usize;
        for mark in marks {
            for run in self.runs.as_slice() {
                price = price.saturating_add(run.count(*mark)).saturating_add(1);
                if price > most {
                    return price;
                }
            }
        }
        price
    }

    // The cheapest condition, if its price is no more than so much.
    fn cheapest(&self, conditions: &[Marks], most: usize) -> Option<usize>
        ensures { IfSome result (λ at. at < length conditions.now) }
    {
        let mut cheapest = None;
        let mut least = most;
        for at in 0..conditions.len() {
            let price = self.price(conditions[at].marks.as_slice(), least);
            if price <= least {
                cheapest = Some(at);
                least = price;
            }
        }
        cheapest
    }

    // The places of the events that have one of the marks.
    fn places(&self, alloc: Global, marks: &[u64]) -> Result<Vec<usize>, AllocError>
        ensures { (f : Filter) (events : List EventView) → AreMarksOf f marks.now → Covers events self.now → IfOk result (λ v. HoldMatching f events v.items) }
    {
        let mut places = Vec::new(alloc);
        for mark in marks {
            put_places(self.runs.as_slice(), *mark, self.count, &mut places)?;
        }
        Ok(places)
    }

    // Whether it is worth looking the marks up to leave out some of so many places: these are many enough for a table of all places,
    // and the marks take few searches, and find not many times as many.
    fn is_worth(&self, marks: &[u64], places: usize) -> bool {
        let searches = marks.len().saturating_mul(self.runs.len());
        let most = places.saturating_mul(WIDE);
        searches <= places / WIDE
            && places >= self.count / SPARSE
            && self.price(marks, most) <= most
    }

    // Those of the places that the marks of another condition find too.
    fn found_by(
        &self,
        alloc: Global,
        marks: &[u64],
        places: &[usize],
    ) -> Result<Vec<usize>, AllocError>
        ensures { (f : Filter) (events : List EventView) → AreMarksOf f marks.now → Covers events self.now → HoldMatching f events places.now → IfOk result (λ v. HoldMatching f events v.items) }
    {
        let others = self.places(alloc, marks)?;
        let both = common(alloc, places, others.as_slice(), self.count)?;
        Ok(both)
    }

    // The places, without those at which no event has what another condition than the one at `at` asks for, where that is worth it.
    // It ends behind a condition that leaves more than half of them: so all of them take twice what the first may take.
    fn narrowed(
        &self,
        alloc: Global,
        conditions: &[Marks],
        at: usize,
        places: Vec<usize>,
    ) -> Result<Vec<usize>, AllocError>
        ensures { (f : Filter) (events : List EventView) → All (λ m. AreMarksOf f m.marks.items) conditions.now → Covers events self.now → HoldMatching f events places.items → IfOk result (λ v. HoldMatching f events v.items) }
    {
        let mut places = places;
        for other in 0..conditions.len() {
            let marks = conditions[other].marks.as_slice();
            if other != at && self.is_worth(marks, places.len()) {
                let found = self.found_by(alloc, marks, places.as_slice())?;
                if found.len() > places.len() / 2 {
                    return Ok(found);
                }
                places = found;
            }
        }
        Ok(places)
    }

    /// Places of covered events, among them of all that the filter matches, where one of its conditions on authors, kinds or tags
    /// takes no more searches, and finds no more places, than `most` together: for each of its values there is a search in each run.
    /// They come in no order, and some twice. Those are left out that have not what another condition asks for, as far as that is
    /// quickly found. Nothing takes more than `most` searches for each condition, and an eighth as many to leave places out.
    pub fn find(
        &self,
        alloc: Global,
        filter: &Filter,
        most: usize,
    ) -> Result<Option<Vec<usize>>, AllocError>
        ensures { (events : List EventView) → Covers events self.now → IfOk result (λ o. IfSome o (λ v. HoldMatching filter.now events v.items)) }
    {
        let conditions = conditions(alloc, filter)?;
        match self.cheapest(conditions.as_slice(), most) {
            Some(at) => {
                let places = self.places(alloc, conditions[at].marks.as_slice())?;
                Ok(Some(self.narrowed(alloc, conditions.as_slice(), at, places)?))
            }
            None => Ok(None),
        }
    }
}
