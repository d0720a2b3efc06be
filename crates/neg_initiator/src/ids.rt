//! Lists and sets of ids.

ghost use Rattle.std.specs.Prelude.{◌≡◌, ◌<◌, ◌⊎◌, ◌↔◌, [], length, IsTrue, IfOk, OnOk, Contains};
ghost use Rattle.item_key.specs.declared.Id.{Id};
ghost use Rattle.neg_initiator.specs.Listed.{Distinct};
ghost use Rattle.neg_initiator.specs.Lookups.{looked_up, ids_in, IsSet};

use item_key::Id;
use std::alloc::{AllocError, Global};
use std::collections::BTreeSet;

/// Whether the set has the id.
fn has(set: &BTreeSet<Id>, id: &Id) -> bool
    ensures { IsTrue result ↔ Contains set.now.keys id.now }
{
    set.contains(id)
}

/// Puts an id into the set.
fn put(set: &mut BTreeSet<Id>, id: Id) -> Result<(), AllocError>
    ensures { OnOk result ((i : Id) → Contains set.new.keys i ↔ (Contains set.old.keys i ⊎ (i ≡ id))) }
{
    set.insert(id)?;
    Ok(())
}

/// The ids of a list as a set. One sort.
fn set_of(alloc: Global, ids: &[Id]) -> Result<BTreeSet<Id>, AllocError>
    ensures { IfOk result (λ s. (i : Id) → Contains s.keys i ↔ Contains ids.now i) }
{
    let set: BTreeSet<Id> = ids.iter().copied().collect(alloc)?;
    Ok(set)
}

/// Ids that were found. Until they are made a set they stand in no order, and some perhaps more than once.
#[derive(Drop)]
pub enum Ids {
    Listed(Vec<Id>),
    Set(BTreeSet<Id>),
}

impl Ids {
    /// No ids. It takes no memory.
    pub fn none(alloc: Global) -> Ids
        ensures { ids_in result ≡ [] }
    {
        Ids::Listed(Vec::new(alloc))
    }

    /// How many there are, each as often as it stands there.
    pub fn len(&self) -> usize
        ensures { result ≡ length (ids_in self.now) }
    {
        match self {
            Ids::Listed(list) => list.len(),
            Ids::Set(set) => set.len(),
        }
    }

    /// Puts an id in.
    pub fn put(&mut self, id: Id) -> Result<(), AllocError>
        ensures { OnOk result ((i : Id) → Contains (ids_in self.new) i ↔ (Contains (ids_in self.old) i ⊎ (i ≡ id))) }
    {
        match self {
            Ids::Listed(list) => {
                list.push(id)?;
                Ok(())
            }
            Ids::Set(set) => {
                put(set, id)?;
                Ok(())
            }
        }
    }

    /// Makes a set of the ids. One sort, unless they are one.
    fn make_set(&mut self, alloc: Global) -> Result<(), AllocError>
        ensures same { OnOk result ((i : Id) → Contains (ids_in self.new) i ↔ Contains (ids_in self.old) i) }
        ensures once { OnOk result (Distinct (ids_in self.new)) }
        ensures set { OnOk result (IsSet self.new) }
    {
        let set = match self {
            Ids::Listed(list) => set_of(alloc, list)?,
            Ids::Set(set) => {
                let _ = set.len();
                return Ok(());
            }
        };
        let _ = set.len();
        *self = Ids::Set(set);
        Ok(())
    }

    /// Makes a set of the ids where there are more than so many, or no more will come.
    pub fn tidy(&mut self, alloc: Global, most: usize, is_last: bool) -> Result<(), AllocError>
        ensures same { OnOk result ((i : Id) → Contains (ids_in self.new) i ↔ Contains (ids_in self.old) i) }
        ensures once { OnOk result (most < length (ids_in self.new) → Distinct (ids_in self.new)) }
        ensures set { OnOk result (IsTrue is_last → IsSet self.new) }
    {
        if is_last || self.len() > most {
            self.make_set(alloc)?;
        }
        Ok(())
    }

    /// The set of the ids.
    pub fn into_set(self) -> BTreeSet<Id>
        requires { IsSet self }
        ensures { result.keys ≡ ids_in self }
    {
        match self {
            Ids::Set(set) => set,
            Ids::Listed(_) => unreachable!(),
        }
    }
}

/// A list is looked through as it stands where it has no more ids, or no more are asked for.
const FEW_IDS: usize = 32;

/// Ids of which it is asked whether they have another among them.
#[derive(Drop)]
pub enum Lookup<'a> {
    Few(&'a [Id]),
    Many(BTreeSet<Id>),
}

/// Whether an id stands in a list, by a pass over it.
fn is_among(ids: &[Id], id: &Id) -> bool
    ensures { IsTrue result ↔ Contains ids.now id.now }
{
    for other in ids {
        if other.cmp(id).is_eq() {
            return true;
        }
    }
    false
}

impl<'a> Lookup<'a> {
    /// The ids of a list, of which so many others are asked: n log n in its length, unless either is small. Then it takes no
    /// memory, and each question a pass over the list.
    pub fn of(alloc: Global, ids: &'a [Id], asked: usize) -> Result<Lookup<'a>, AllocError>
        ensures { IfOk result (λ l. (i : Id) → Contains (looked_up l) i ↔ Contains ids.now i) }
    {
        if ids.len().min(asked) <= FEW_IDS {
            return Ok(Lookup::Few(ids));
        }
        let set = set_of(alloc, ids)?;
        Ok(Lookup::Many(set))
    }

    /// Whether the id is among them.
    pub fn has(&self, id: &Id) -> bool
        ensures { IsTrue result ↔ Contains (looked_up self.now) id.now }
    {
        match self {
            Lookup::Few(ids) => is_among(ids, id),
            Lookup::Many(set) => has(set, id),
        }
    }
}
