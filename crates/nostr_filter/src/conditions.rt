// The lists of a filter's conditions, which contracts see as lists.
ghost use Rattle.std.specs.Prelude.{◌≡◌, ◌==◌, List, ℕ, true, IfOk, IfErr, IsTrue, ◌↔◌};
ghost use Rattle.std.specs.List.{list_any};
ghost use Rattle.nostr_filter.specs.Members.{has_text};

use crate::letters::is_in_order;
use crate::members::{is_listed, order_of, set_of};
use nostr_event::Text;
use std::alloc::{AllocError, Global};
use std::collections::BTreeSet;
use std::marker::Model;

/// 32-byte values, as event ids or public keys, seen as the list of their bytes.
pub struct Bytes32List {
    values: Vec<[u8; 32]>,
    // The values once more, if they are many.
    set: Option<BTreeSet<[u8; 32]>>,
}

// By hand, as a derived one is proved anew wherever a value is dropped.
impl Drop for Bytes32List {
    fn drop(self) {
        let Self { values: _, set: _ } = self;
    }
}

impl Model for Bytes32List {
    ghost use Rattle.std.specs.Prelude.{List, ℕ, IfSome};
    ghost use Rattle.std.specs.Cmp.Lexicographic.{slice_cmp};
    ghost use Rattle.std.specs.Ordering.{nat_cmp};
    ghost use Rattle.std.specs.BTreeSet.{IsFromIterResult};

    ghost Value = { List (List ℕ) };

    ghost view = { λ l. l.values.items };

    ghost invariant = { λ l. IfSome l.set (IsFromIterResult (slice_cmp nat_cmp) l.values.items) };
}

impl Bytes32List {
    pub fn new(values: Vec<[u8; 32]>) -> Bytes32List
        ensures { result ≡ values.items }
    {
        Bytes32List { values, set: None }
    }

    /// The same list, prepared so that `has` needs no pass over it: n log n in the number of values.
    pub fn searchable(alloc: Global, values: Vec<[u8; 32]>) -> Result<Bytes32List, AllocError>
        ensures { IfOk result (λ l. l ≡ values.items) }
    {
        let set = set_of(alloc, values.as_slice())?;
        Ok(Bytes32List { values, set })
    }

    /// Whether the value is listed.
    pub fn has(&self, value: &[u8; 32]) -> bool
        ensures { result ≡ has_text self.now value.now }
    {
        match &self.set {
            Some(set) => set.contains(value),
            None => self.values.iter().any(|listed| listed == value),
        }
    }

    pub fn as_slice(&self) -> &[[u8; 32]]
        ensures { result.now ≡ self.now }
    {
        self.values.as_slice()
    }

    /// Gives the values back.
    pub fn into_vec(self) -> Vec<[u8; 32]>
        ensures { result.items ≡ self }
    {
        let Self { values, set: _ } = self;
        values
    }
}

/// Kinds of events, seen as a list of numbers.
pub struct Kinds {
    kinds: Vec<u16>,
    // The kinds once more, if they are many.
    set: Option<BTreeSet<u16>>,
}

// By hand, as a derived one is proved anew wherever a value is dropped.
impl Drop for Kinds {
    fn drop(self) {
        let Self { kinds: _, set: _ } = self;
    }
}

impl Model for Kinds {
    ghost use Rattle.std.specs.Prelude.{List, ℕ, IfSome};
    ghost use Rattle.std.specs.Ordering.{nat_cmp};
    ghost use Rattle.std.specs.BTreeSet.{IsFromIterResult};

    ghost Value = { List ℕ };

    ghost view = { λ l. l.kinds.items };

    ghost invariant = { λ l. IfSome l.set (IsFromIterResult nat_cmp l.kinds.items) };
}

impl Kinds {
    pub fn new(kinds: Vec<u16>) -> Kinds
        ensures { result ≡ kinds.items }
    {
        Kinds { kinds, set: None }
    }

    /// The same list, prepared so that `has` needs no pass over it: n log n in the number of kinds.
    pub fn searchable(alloc: Global, kinds: Vec<u16>) -> Result<Kinds, AllocError>
        ensures { IfOk result (λ l. l ≡ kinds.items) }
    {
        let set = set_of(alloc, kinds.as_slice())?;
        Ok(Kinds { kinds, set })
    }

    /// Whether the kind is listed.
    pub fn has(&self, kind: u16) -> bool
        ensures { result ≡ list_any (λ k. k == kind) self.now }
    {
        match &self.set {
            Some(set) => set.contains(&kind),
            None => self.kinds.contains(&kind),
        }
    }

    pub fn as_slice(&self) -> &[u16]
        ensures { result.now ≡ self.now }
    {
        self.kinds.as_slice()
    }

    /// Gives the kinds back.
    pub fn into_vec(self) -> Vec<u16>
        ensures { result.items ≡ self }
    {
        let Self { kinds, set: _ } = self;
        kinds
    }
}

/// Texts, seen as the list of their bytes.
pub struct Texts {
    texts: Vec<Text>,
    // The places in the order of the texts, if they are many.
    order: Option<Vec<usize>>,
}

// By hand, as a derived one is proved anew wherever a value is dropped.
impl Drop for Texts {
    fn drop(self) {
        let Self { texts: _, order: _ } = self;
    }
}

impl Model for Texts {
    ghost use Rattle.std.specs.Prelude.{List, ℕ, IfSome};
    ghost use Rattle.nostr_filter.specs.Members.{AreInOrder};

    ghost Value = { List (List ℕ) };

    ghost view = { λ l. l.texts.items };

    ghost invariant = { λ l. IfSome l.order (λ p. AreInOrder l.texts.items p.items) };
}

impl Texts {
    pub fn new(texts: Vec<Text>) -> Texts
        ensures { result ≡ texts.items }
    {
        Texts { texts, order: None }
    }

    /// The same list, prepared so that `has` needs no pass over it: n log n in the number of texts.
    pub fn searchable(alloc: Global, texts: Vec<Text>) -> Result<Texts, AllocError>
        ensures { IfOk result (λ l. l ≡ texts.items) }
    {
        let order = order_of(alloc, texts.as_slice())?;
        Ok(Texts { texts, order })
    }

    /// Whether the text is listed.
    pub fn has(&self, text: &str) -> bool
        ensures { result ≡ has_text self.now text.now }
    {
        match &self.order {
            Some(order) => is_listed(self.texts.as_slice(), order.as_slice(), text),
            None => self.texts.iter().any(|listed| listed.as_str() == text),
        }
    }

    pub fn as_slice(&self) -> &[Text]
        ensures { result.now ≡ self.now }
    {
        self.texts.as_slice()
    }

    /// Gives the texts back.
    pub fn into_vec(self) -> Vec<Text>
        ensures { result.items ≡ self }
    {
        let Self { texts, order: _ } = self;
        texts
    }
}

/// The condition `#x` for a letter x: some tag of that name has one of the values.
pub struct TagCondition {
    /// The ASCII code of a letter, A to Z or a to z.
    pub letter: u8,
    pub values: Texts,
}

// By hand, as a derived one is proved anew wherever a value is dropped.
impl Drop for TagCondition {
    fn drop(self) {
        let Self {
            letter: _,
            values: _,
        } = self;
    }
}

/// At most one condition for each letter, seen as their list in the order of the letters' codes.
pub struct TagConditions {
    // `None` stands for no conditions, so that these need no allocator.
    list: Option<Vec<TagCondition>>,
}

// By hand, as a derived one is proved anew wherever a value is dropped.
impl Drop for TagConditions {
    fn drop(self) {
        let Self { list: _ } = self;
    }
}

impl Model for TagConditions {
    ghost use Rattle.std.specs.Prelude.{List, ◌≡◌, true};
    ghost use Rattle.nostr_filter.specs.declared.conditions.TagCondition.{TagCondition};
    ghost use Rattle.nostr_filter.specs.Tags.{listed, are_in_order};

    ghost Value = { List TagCondition };

    ghost view = { λ c. listed c.list };

    ghost invariant = { λ c. are_in_order (listed c.list) ≡ true };
}

impl TagConditions {
    ghost use Rattle.std.specs.Prelude.{[]};
    ghost use Rattle.nostr_filter.specs.Tags.{are_in_order, listed};

    /// No conditions.
    pub fn none() -> TagConditions
        ensures { result ≡ [] }
    {
        TagConditions { list: None }
    }

    /// The conditions of the list, if each letter is one and they ascend; else the list.
    pub fn new(list: Vec<TagCondition>) -> Result<TagConditions, Vec<TagCondition>>
        ensures made { IfOk result (λ c. (c ≡ list.items) × (are_in_order list.items ≡ true)) }
        ensures given_back { IfErr result (λ v. (v ≡ list) × ¬ (are_in_order list.items ≡ true)) }
    {
        if is_in_order(list.as_slice()) {
            Ok(TagConditions { list: Some(list) })
        } else {
            Err(list)
        }
    }

    pub fn as_slice(&self) -> &[TagCondition]
        ensures list { result.now ≡ self.now }
        ensures in_order { are_in_order result.now ≡ true }
    {
        match &self.list {
            Some(list) => list.as_slice(),
            None => &[],
        }
    }

    /// Gives the list back, if there is one: no conditions may have none.
    pub fn into_vec(self) -> Option<Vec<TagCondition>>
        ensures { listed result ≡ self }
    {
        let Self { list } = self;
        list
    }
}
