// Filters, and what they match.
ghost use Rattle.std.specs.Prelude.{◌≡◌, ◌&&◌, [], ℕ};
ghost use Rattle.nostr_filter.specs.Matching.{tag_meets, tags_meet, within_of, meets_of, matches_of};
ghost use Rattle.std.specs.List.{list_any, list_all};

use crate::conditions::{Bytes32List, Kinds, TagCondition, TagConditions};
use item_key::Id;
use nostr_event::{Event, Tag, Tags};

/// What an event has to meet (NIP-01). An absent condition is met by each event, an empty list by none.
pub struct Filter {
    pub ids: Option<Bytes32List>,
    /// Public keys.
    pub authors: Option<Bytes32List>,
    pub kinds: Option<Kinds>,
    pub tags: TagConditions,
    /// The least `created_at`.
    pub since: Option<u64>,
    /// The greatest `created_at`.
    pub until: Option<u64>,
    /// How many events are chosen at most. It has no part in matching.
    pub limit: Option<u64>,
}

// By hand, as a derived one is proved anew wherever a value is dropped.
impl Drop for Filter {
    fn drop(self) {
        let Self {
            ids: _,
            authors: _,
            kinds: _,
            tags: _,
            since: _,
            until: _,
            limit: _,
        } = self;
    }
}

impl Filter {
    /// A filter that each event meets.
    pub fn all() -> Filter
        ensures { result ≡ record { ids = None; authors = None; kinds = None; tags = []; since = None; until = None; limit = None } }
    {
        Filter {
            ids: None,
            authors: None,
            kinds: None,
            tags: TagConditions::none(),
            since: None,
            until: None,
            limit: None,
        }
    }

    /// Whether an event with this id, author, kind and time meets each condition but those on tags. The limit has no part in it.
    pub fn meets(&self, id: &Id, author: &[u8; 32], kind: u16, time: u64) -> bool
        ensures { result ≡ meets_of self.now id.now.0 author.now kind time }
    {
        let named = match &self.ids {
            Some(ids) => ids.has(&id.0),
            None => true,
        };
        let by_author = match &self.authors {
            Some(authors) => authors.has(author),
            None => true,
        };
        let of_kind = match &self.kinds {
            Some(kinds) => kinds.has(kind),
            None => true,
        };
        named && by_author && of_kind && self.is_within(time)
    }

    /// Whether the event meets each condition. The limit has no part in it.
    pub fn matches(&self, event: &Event) -> bool
        ensures value { result ≡ matches_of self.now event.now }
    {
        self.meets(
            &event.id(),
            event.pubkey(),
            event.kind(),
            event.created_at(),
        ) && self.meets_tags(event)
    }

    /// Whether the event meets each condition on tags. Where there is none, the event isn't read.
    pub fn meets_tags(&self, event: &Event) -> bool
        ensures value { result ≡ list_all (tags_meet event.now.draft.tags) self.now.tags }
    {
        self.tags
            .as_slice()
            .iter()
            .all(|condition| condition_met(condition, event.tags()))
    }

    fn is_within(&self, time: u64) -> bool
        ensures { result ≡ within_of self.now time }
    {
        let early = match self.since {
            Some(since) => since <= time,
            None => true,
        };
        let late = match self.until {
            Some(until) => time <= until,
            None => true,
        };
        early && late
    }
}

// Whether the tag has the condition's name, and its first value is one of the condition's.
fn tag_met(condition: &TagCondition, tag: &Tag<'_>) -> bool
    ensures { result ≡ tag_meets condition.now tag.now }
{
    let Some((name, values)) = tag.split_first() else {
        return false;
    };
    match values.split_first() {
        Some((value, _)) => name.as_bytes() == [condition.letter].as_slice()
            && condition.values.has(value),
        None => false,
    }
}

// Whether some tag meets the condition.
pub fn condition_met(condition: &TagCondition, tags: &Tags) -> bool
    ensures { result ≡ tags_meet tags.now condition.now }
{
    for tag in tags.iter() {
        if tag_met(condition, &tag) {
            return true;
        }
    }
    false
}
