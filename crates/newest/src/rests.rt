//! Parts of runs: what is left of them where entries that a filter doesn't match are passed over.
ghost use Rattle.std.specs.Prelude.{◌≡◌, ◌∷◌, [], ℕ, List, IsTrue, Some};
ghost use Rattle.nostr_event.specs.EventView.{EventView};
ghost use Rattle.newest.specs.Newest.{IsNewestFirst, IsRest, BeginsMatched, hits};

use crate::entry::Entry;
use nostr_filter::Filter;

// Passes over the first entries, as far as they are later than the time. It reads as many as a binary search does.
fn from_time<'a>(entries: &'a [Entry], filter: &Filter, until: u64) -> &'a [Entry]
    requires sorted { IsNewestFirst entries.now }
    requires until { filter.now.until ≡ Some until }
    ensures { IsRest filter.now result.now entries.now }
{
    &entries[entries.partition_point(|entry| until < entry.time())..]
}

/// Passes over the first entries, as far as they are later than all that the filter matches.
pub fn from_latest<'a>(entries: &'a [Entry], filter: &Filter) -> &'a [Entry]
    requires { IsNewestFirst entries.now }
    ensures { IsRest filter.now result.now entries.now }
{
    match filter.until {
        Some(until) => from_time(entries, filter, until),
        None => entries,
    }
}

// Whether an entry, and so each behind it, is earlier than all that the filter matches.
fn is_too_early(entry: &Entry, filter: &Filter) -> bool
    ensures { (ps : List (ℕ × EventView)) → IsNewestFirst (entry.now ∷ ps) → IsTrue result → hits filter.now (entry.now ∷ ps) ≡ [] }
{
    match filter.since {
        Some(since) => entry.time() < since,
        None => false,
    }
}

/// Passes over the first entries up to one that the filter matches, or to the end where it matches none.
pub fn from_match<'a>(entries: &'a [Entry], filter: &Filter) -> &'a [Entry]
    requires { IsNewestFirst entries.now }
    ensures rest { IsRest filter.now result.now entries.now }
    ensures begins { BeginsMatched filter.now result.now }
{
    for at in 0..entries.len() {
        if is_too_early(&entries[at], filter) {
            return &[];
        }
        if entries[at].matches(filter) {
            return &entries[at..];
        }
    }
    &[]
}
