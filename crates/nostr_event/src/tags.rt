//! The tags of an event, whose texts stand one behind the other in one piece of memory.
ghost use Rattle.std.specs.Prelude.{◌≡◌, ◌==◌, ◌++◌, ◌∷◌, [], length, map, IfOk, MatchOption};
ghost use Rattle.std.specs.List.{All, slice_get};
ghost use Rattle.std.specs.Str.{IsUtf8};
ghost use Rattle.std.specs.Iterator.{at_most};
ghost use Rattle.std.specs.Map.Iter.{deref, TakesFirst};
ghost use Rattle.nostr_event.specs.Parts.{part, parts};

use crate::parts::{ends_between, place_of, put_texts, start_behind, text_between};
use std::alloc::{AllocError, Global};
use std::iter::Iterator;
use std::marker::Model;

// So many bytes, texts and tags most events have at most.
const MOST_BYTES: usize = 256;

const MOST_TEXTS: usize = 16;

const MOST_TAGS: usize = 8;

/// The tags of an event, seen as the list of the tags' lists. No tag and no text takes memory of its own, but four bytes for where it
/// ends; so they have less than 4 GiB.
pub struct Tags {
    // All texts, one behind the other.
    bytes: Vec<u8>,
    // Where each of them ends.
    ends: Vec<u32>,
    // How many of them there are up to the end of each tag.
    tags: Vec<u32>,
}

// By hand, as a derived one is proved anew wherever a value is dropped.
impl Drop for Tags {
    fn drop(self) {
        let Self {
            bytes: _,
            ends: _,
            tags: _,
        } = self;
    }
}

impl Model for Tags {
    ghost use Rattle.std.specs.Prelude.{List, ℕ, length};
    ghost use Rattle.nostr_event.specs.Parts.{parts, Rise, AreTexts};

    ghost Value = { List (List (List ℕ)) };

    ghost view = { λ t. parts (parts t.bytes.items 0 t.ends.items) 0 t.tags.items };

    ghost invariant = { λ t. AreTexts t.bytes.items t.ends.items × Rise 0 t.tags.items (length t.ends.items) };
}

impl Tags {
    /// No tags. They take no memory.
    pub fn new(alloc: Global) -> Tags
        ensures { result ≡ [] }
    {
        Tags {
            bytes: Vec::new(alloc),
            ends: Vec::new(alloc),
            tags: Vec::new(alloc),
        }
    }

    /// These tags, and behind them one of these texts: its name, then its values.
    pub fn with(self, texts: &[&str]) -> Result<Tags, AllocError>
        ensures { IfOk result (λ t. t ≡ self ++ map (λ s. s.now) texts.now ∷ []) }
    {
        let Tags {
            mut bytes,
            mut ends,
            mut tags,
        } = self;
        reserve_at_first(&mut bytes, &mut ends, &mut tags)?;
        put_texts(&mut bytes, &mut ends, texts)?;
        tags.push(place_of(ends.len())?)?;
        Ok(Tags { bytes, ends, tags })
    }

    /// The same in just as much memory as they take.
    pub fn fitted(self) -> Tags
        ensures { result ≡ self }
    {
        let Tags {
            mut bytes,
            mut ends,
            mut tags,
        } = self;
        bytes.shrink_to_fit();
        ends.shrink_to_fit();
        tags.shrink_to_fit();
        Tags { bytes, ends, tags }
    }

    /// The same tags, in memory of their own.
    pub fn copied(&self, alloc: Global) -> Result<Tags, AllocError>
        ensures { IfOk result (λ t. t ≡ self.now) }
    {
        let mut bytes = Vec::new(alloc);
        bytes.extend_from_slice(&self.bytes)?;
        let mut ends = Vec::new(alloc);
        ends.extend_from_slice(&self.ends)?;
        let mut tags = Vec::new(alloc);
        tags.extend_from_slice(&self.tags)?;
        Ok(Tags { bytes, ends, tags })
    }

    /// How many there are.
    pub fn len(&self) -> usize
        ensures { result ≡ length self.now }
    {
        self.tags.len()
    }

    /// Whether there are none.
    pub fn is_empty(&self) -> bool
        ensures { result ≡ (length self.now == 0) }
    {
        self.tags.is_empty()
    }

    /// The tag at a place.
    pub fn get(&self, place: usize) -> Option<Tag<'_>>
        ensures { result ≡ slice_get self.now place }
    {
        if place >= self.tags.len() {
            return None;
        }
        let start = start_behind(&self.tags, place);
        let end = self.tags[place] as usize;
        Some(tag_between(&self.bytes, &self.ends, start, end))
    }

    /// The tags in their order.
    pub fn iter(&self) -> Iter<'_>
        ensures { result ≡ self.now }
    {
        Iter {
            bytes: self.bytes.as_slice(),
            ends: self.ends.as_slice(),
            start: 0,
            tags: self.tags.as_slice(),
        }
    }
}

// At the first tag, room for what most events have.
fn reserve_at_first(
    bytes: &mut Vec<u8>,
    ends: &mut Vec<u32>,
    tags: &mut Vec<u32>,
) -> Result<(), AllocError>
    ensures bytes { bytes.new.items ≡ bytes.old.items }
    ensures ends { ends.new.items ≡ ends.old.items }
    ensures tags { tags.new.items ≡ tags.old.items }
{
    if !tags.is_empty() {
        return Ok(());
    }
    bytes.reserve(MOST_BYTES)?;
    ends.reserve(MOST_TEXTS)?;
    tags.reserve(MOST_TAGS)?;
    Ok(())
}

// The tag of the texts from one place to another.
fn tag_between<'t>(bytes: &'t [u8], ends: &'t [u32], start: usize, end: usize) -> Tag<'t>
    requires { All IsUtf8 (parts bytes.now 0 ends.now) }
    ensures { result ≡ part (parts bytes.now 0 ends.now) start end }
{
    Tag {
        bytes,
        start: start_behind(ends, start),
        ends: ends_between(ends, start, end),
    }
}

/// A tag, seen as the list of its texts: its name, then its values. It may be empty.
#[derive(Drop)]
pub struct Tag<'t> {
    bytes: &'t [u8],
    // Where its first text begins.
    start: usize,
    // Where each of its texts ends.
    ends: &'t [u32],
}

impl<'t> Model for Tag<'t> {
    ghost use Rattle.std.specs.Prelude.{List, ℕ};
    ghost use Rattle.std.specs.List.{All};
    ghost use Rattle.std.specs.Str.{IsUtf8};
    ghost use Rattle.nostr_event.specs.Parts.{parts};

    ghost Value = { List (List ℕ) };

    ghost view = { λ t. parts t.bytes.now t.start t.ends.now };

    ghost invariant = { λ t. All IsUtf8 (parts t.bytes.now t.start t.ends.now) };
}

impl<'t> Tag<'t> {
    /// The first text, and the others.
    pub fn split_first(&self) -> Option<(&'t str, Tag<'t>)>
        ensures { MatchOption result (self.now ≡ []) (λ p. self.now ≡ p.0.now ∷ p.1) }
    {
        let (end, ends) = self.ends.split_first()?;
        let end = *end as usize;
        let text = text_between(self.bytes, self.start, end);
        let others = Tag {
            bytes: self.bytes,
            start: end,
            ends,
        };
        Some((text, others))
    }

    /// The texts in their order.
    pub fn texts(self) -> Texts<'t>
        ensures { result ≡ self.entry }
    {
        Texts { left: self }
    }
}

/// The texts of a tag that are left to walk over.
#[derive(Drop)]
pub struct Texts<'t> {
    left: Tag<'t>,
}

impl<'t> Model for Texts<'t> {
    ghost use Rattle.std.specs.Prelude.{List, ℕ};

    ghost Value = { List (List ℕ) };

    ghost view = { λ t. t.left };
}

impl<'t> Iterator for Texts<'t> {
    type Item = &'t str;

    ghost next_gives = { TakesFirst deref };

    ghost remaining = { λ s. at_most (length s) };

    fn next(&mut self) -> Option<&'t str> {
        let (first, others) = self.left.split_first()?;
        self.left = others;
        Some(first)
    }
}

/// The tags of an event that are left to walk over.
#[derive(Drop)]
pub struct Iter<'t> {
    bytes: &'t [u8],
    ends: &'t [u32],
    // How many texts are behind it.
    start: usize,
    tags: &'t [u32],
}

impl<'t> Model for Iter<'t> {
    ghost use Rattle.std.specs.Prelude.{List, ℕ};
    ghost use Rattle.std.specs.List.{All};
    ghost use Rattle.std.specs.Str.{IsUtf8};
    ghost use Rattle.nostr_event.specs.Parts.{parts};

    ghost Value = { List (List (List ℕ)) };

    ghost view = { λ s. parts (parts s.bytes.now 0 s.ends.now) s.start s.tags.now };

    ghost invariant = { λ s. All IsUtf8 (parts s.bytes.now 0 s.ends.now) };
}

impl<'t> Iterator for Iter<'t> {
    type Item = Tag<'t>;

    ghost next_gives = { TakesFirst (λ t. t) };

    ghost remaining = { λ s. at_most (length s) };

    fn next(&mut self) -> Option<Tag<'t>> {
        let (end, tags) = self.tags.split_first()?;
        let end = *end as usize;
        let tag = tag_between(self.bytes, self.ends, self.start, end);
        self.start = end;
        self.tags = tags;
        Some(tag)
    }
}
