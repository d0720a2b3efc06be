//! The times of a filter, and its part within a slice of them.

ghost use Rattle.std.specs.Prelude.{◌≡◌, ◌^◌, ◌-◌, IfOk, None, Some, nat_lt, if◌then◌else◌};
ghost use Rattle.pass_run.specs.Span.{within, first_of, last_of};

use nostr_filter::{Filter, FilterFault};
use slices::Slice;
use std::alloc::Global;
use store_run::Refusal;

/// The first time that a filter matches.
pub fn first_time(filter: &Filter) -> u64
    ensures { result ≡ first_of filter.now }
{
    match filter.since {
        Some(since) => since,
        None => 0,
    }
}

/// The last one.
pub fn last_time(filter: &Filter) -> u64
    ensures { result ≡ last_of filter.now }
{
    match filter.until {
        Some(until) => until,
        None => u64::MAX,
    }
}

/// The same filter.
fn copied(alloc: Global, filter: &Filter) -> Result<Filter, Refusal>
    ensures { IfOk result (λ f. f ≡ filter.now) }
{
    let value = filter.to_json(alloc)?;
    match Filter::from_json(alloc, &value) {
        Ok(copy) => Ok(copy),
        Err(FilterFault::Memory) => Err(Refusal::Memory),
        Err(_) => unreachable!(),
    }
}

/// A bound that leaves out something.
fn since_of(slice: Slice) -> Option<u64>
    ensures { result ≡ (if nat_lt 0 slice.since then Some slice.since else None) }
{
    if slice.since > 0 {
        Some(slice.since)
    } else {
        None
    }
}

fn until_of(slice: Slice) -> Option<u64>
    ensures { result ≡ (if nat_lt slice.until (2 ^ 64 - 1) then Some slice.until else None) }
{
    if slice.until < u64::MAX {
        Some(slice.until)
    } else {
        None
    }
}

/// What the filter matches of a slice of its times.
pub fn narrowed(alloc: Global, filter: &Filter, slice: Slice) -> Result<Filter, Refusal>
    ensures { IfOk result (λ f. f ≡ within filter.now slice) }
{
    let mut narrowed = copied(alloc, filter)?;
    narrowed.since = since_of(slice);
    narrowed.until = until_of(slice);
    Ok(narrowed)
}
