// A filter read from its JSON object.
ghost use Rattle.std.specs.Prelude.{◌≡◌, ◌≢◌, Some, IfOk, IfErr, IsTrue, codes};
ghost use Rattle.serde_json.specs.Data.{object, no_members};
ghost use Rattle.serde_json.specs.View.{view};
ghost use Rattle.nostr_filter.specs.declared.filter.Filter.{Filter as FilterView};
ghost use Rattle.nostr_filter.specs.FilterJson.{whole_of, field as read_field, Passes, Reads, Refuses, HasShapes};

use crate::conditions::{Bytes32List, Kinds};
use crate::fault::{FilterFault, FilterField};
use crate::fields::{bytes_at, kinds_at, whole_at};
use crate::filter::Filter;
use crate::taking::take_conditions;
use crate::tested::tested;
use serde_json::Value;
use std::alloc::Global;

/// The fields of a filter's object but the conditions on tags, with their shapes.
#[derive(Drop)]
pub struct Shapes {
    pub authors: Option<Bytes32List>,
    pub ids: Option<Bytes32List>,
    pub kinds: Option<Kinds>,
    pub limit: Option<u64>,
    pub since: Option<u64>,
    pub until: Option<u64>,
}

// The fields that are numbers.
struct Wholes {
    limit: Option<u64>,
    since: Option<u64>,
    until: Option<u64>,
}

// They, of a value that passes all tests.
fn wholes_of(value: &Value) -> Result<Wholes, FilterFault>
    requires { Passes (view value.now) }
    ensures limit { IfOk result (λ w. read_field whole_of (codes "limit") (view value.now) ≡ Some w.limit) }
    ensures since { IfOk result (λ w. read_field whole_of (codes "since") (view value.now) ≡ Some w.since) }
    ensures until { IfOk result (λ w. read_field whole_of (codes "until") (view value.now) ≡ Some w.until) }
    ensures err { IfErr result (λ f. Refuses (view value.now) f) }
{
    let limit = whole_at(value, FilterField::Limit, "limit")?;
    let since = whole_at(value, FilterField::Since, "since")?;
    let until = whole_at(value, FilterField::Until, "until")?;
    Ok(Wholes {
        limit,
        since,
        until,
    })
}

// The fields but the conditions on tags, of a value that passes all tests.
fn shapes_of(alloc: Global, value: &Value) -> Result<Shapes, FilterFault>
    requires { Passes (view value.now) }
    ensures ok { IfOk result (λ s. HasShapes (view value.now) s) }
    ensures err { IfErr result (λ f. Refuses (view value.now) f) }
{
    let authors = bytes_at(alloc, value, "authors")?;
    let ids = bytes_at(alloc, value, "ids")?;
    let kinds = kinds_at(alloc, value, "kinds")?;
    let Wholes {
        limit,
        since,
        until,
    } = wholes_of(value)?;
    Ok(Shapes {
        authors,
        ids,
        kinds,
        limit,
        since,
        until,
    })
}

// Whether the value is an object with no field.
fn is_bare(value: &Value) -> bool
    ensures { IsTrue result → view value.now ≡ object no_members }
{
    match value.as_object() {
        Some(map) => map.is_empty(),
        None => false,
    }
}

fn read_filter(alloc: Global, value: &mut Value) -> Result<Filter, FilterFault>
    ensures ok { IfOk result (λ f. Reads (view value.old) f) }
    ensures err { IfErr result (λ f. Refuses (view value.old) f) }
{
    if is_bare(value) {
        // Its fields needn't be looked for.
        return Ok(Filter::all());
    }
    // Only what passes the tests is read, so that want of memory is told of nothing else.
    let is_tagged = tested(value)?;
    let shapes = shapes_of(alloc, value)?;
    let tags = take_conditions(alloc, value, is_tagged)?;
    Ok(Filter {
        ids: shapes.ids,
        authors: shapes.authors,
        kinds: shapes.kinds,
        tags,
        since: shapes.since,
        until: shapes.until,
        limit: shapes.limit,
    })
}

impl Filter {
    /// The filter that the JSON value is (NIP-01), or the first fault that it has. Unknown fields are passed over.
    pub fn from_json(alloc: Global, value: &Value) -> Result<Filter, FilterFault>
        ensures filter { IfOk result (λ f. Reads (view value.now) f) }
        ensures no_other { IfOk result (λ f. (other : FilterView) → Reads (view value.now) other → other ≡ f) }
        ensures fault { IfErr result (λ f. Refuses (view value.now) f) }
        ensures no_filter { IfErr result (λ f. f ≢ FilterFault.Memory → (other : FilterView) → ¬ Reads (view value.now) other) }
    {
        // Only what passes the tests is copied, so that want of memory is told of nothing else.
        let _is_tagged = tested(value)?;
        let mut copy = value.clone()?;
        let read = Filter::take_json(alloc, &mut copy);
        read
    }

    /// The same, of which the texts of the conditions on tags are taken from the value rather than copied.
    pub fn take_json(alloc: Global, value: &mut Value) -> Result<Filter, FilterFault>
        ensures filter { IfOk result (λ f. Reads (view value.old) f) }
        ensures no_other { IfOk result (λ f. (other : FilterView) → Reads (view value.old) other → other ≡ f) }
        ensures fault { IfErr result (λ f. Refuses (view value.old) f) }
        ensures no_filter { IfErr result (λ f. f ≢ FilterFault.Memory → (other : FilterView) → ¬ Reads (view value.old) other) }
    {
        let read = read_filter(alloc, value);
        read
    }
}
