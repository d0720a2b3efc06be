// How much the values of filters take.
ghost use Rattle.std.specs.Prelude.{◌≤◌, ◌<◌, ◌-◌, ◌*◌, SomeIff};
ghost use Rattle.nostr_filter.specs.Sizes.{texts_size, conditions_size, given_size, size_of, sizes_of};

use crate::conditions::{Bytes32List, Kinds, TagCondition};
use crate::filter::Filter;
use nostr_event::Text;

// So many bytes a text takes beside its own.
const EACH_TEXT: usize = 56;

// What is left of the room behind so many values of a size.
fn behind(room: usize, count: usize, each: usize) -> Option<usize>
    requires { 0 < each }
    ensures { SomeIff result (count * each ≤ room) (room - count * each) }
{
    if count <= room / each {
        Some(room - count * each)
    } else {
        None
    }
}

// What is left of the room behind the texts.
fn behind_texts(room: usize, texts: &[Text]) -> Option<usize>
    ensures { SomeIff result (texts_size texts.now ≤ room) (room - texts_size texts.now) }
{
    let mut left = room;
    for text in texts {
        let size = text.as_str().len();
        if left < EACH_TEXT || left - EACH_TEXT < size {
            return None;
        }
        left = left - EACH_TEXT - size;
    }
    Some(left)
}

// What is left of the room behind the conditions.
fn behind_conditions(room: usize, conditions: &[TagCondition]) -> Option<usize>
    ensures { SomeIff result (conditions_size conditions.now ≤ room) (room - conditions_size conditions.now) }
{
    let mut left = room;
    for condition in conditions {
        match behind_texts(left, condition.values.as_slice()) {
            Some(rest) => left = rest,
            None => return None,
        }
    }
    Some(left)
}

fn behind_bytes(room: usize, values: &Option<Bytes32List>) -> Option<usize>
    ensures { SomeIff result (given_size 32 values.now ≤ room) (room - given_size 32 values.now) }
{
    match values {
        Some(values) => behind(room, values.as_slice().len(), 32),
        None => Some(room),
    }
}

fn behind_kinds(room: usize, kinds: &Option<Kinds>) -> Option<usize>
    ensures { SomeIff result (given_size 2 kinds.now ≤ room) (room - given_size 2 kinds.now) }
{
    match kinds {
        Some(kinds) => behind(room, kinds.as_slice().len(), 2),
        None => Some(room),
    }
}

impl Filter {
    /// What is left of so many bytes behind the filter's values, if these fit: 32 for each id and author, 2 for each kind, and
    /// for each value of a tag 56 beside its own.
    pub fn room_behind(&self, room: usize) -> Option<usize>
        ensures { SomeIff result (size_of self.now ≤ room) (room - size_of self.now) }
    {
        let Some(room) = behind_bytes(room, &self.ids) else {
            return None;
        };
        let Some(room) = behind_bytes(room, &self.authors) else {
            return None;
        };
        let Some(room) = behind_kinds(room, &self.kinds) else {
            return None;
        };
        behind_conditions(room, self.tags.as_slice())
    }
}

/// What is left of so many bytes behind the values of the filters, if these fit.
pub fn room_behind(room: usize, filters: &[Filter]) -> Option<usize>
    ensures { SomeIff result (sizes_of filters.now ≤ room) (room - sizes_of filters.now) }
{
    let mut left = room;
    for filter in filters {
        match filter.room_behind(left) {
            Some(rest) => left = rest,
            None => return None,
        }
    }
    Some(left)
}
