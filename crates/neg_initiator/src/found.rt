//! What a session has found out.

ghost use Rattle.std.specs.Prelude.{◌≡◌, ◌<◌, ◌↔◌, [], OnOk, Contains, IsTrue, length};
ghost use Rattle.item_key.specs.declared.Id.{Id};
ghost use Rattle.neg_initiator.specs.Listed.{Distinct};
ghost use Rattle.neg_initiator.specs.Lookups.{looked_up, ids_in, IsSet};
ghost use Rattle.neg_initiator.specs.Notes.{NotesOne, Notes};

use crate::ids::{Ids, Lookup};
use item_key::{Id, Key};
use neg_codec::Bound;
use std::alloc::{AllocError, Global};

/// What a session has found out so far.
#[derive(Drop)]
pub struct Found {
    /// The ids that the other side has and the roll lacks.
    pub need: Ids,
    /// The ids that the roll has and the other side lacks.
    pub have: Ids,
    /// The stretches that were taken as equal by their fingerprint alone.
    pub trusted: Vec<(Key, Bound)>,
    /// How many ids may be needed.
    pub most: usize,
}

impl Found {
    /// Nothing yet, where at most so many ids may be needed. It takes no memory.
    pub fn none(alloc: Global, most: usize) -> Found
        ensures need { ids_in result.need ≡ [] }
        ensures have { ids_in result.have ≡ [] }
        ensures trusted { result.trusted.items ≡ [] }
        ensures most { result.most ≡ most }
    {
        Found {
            need: Ids::none(alloc),
            have: Ids::none(alloc),
            trusted: Vec::new(alloc),
            most,
        }
    }
}

/// Puts an id in where the others lack it.
fn note(into: &mut Ids, id: &Id, others: &Lookup<'_>) -> Result<(), AllocError>
    ensures { OnOk result (NotesOne (looked_up others.now) id.now (ids_in into.old) (ids_in into.new)) }
{
    if others.has(id) {
        return Ok(());
    }
    into.put(*id)
}

/// Puts the ids of a list in that the others lack.
fn note_all(into: &mut Ids, seen: &[Id], others: &Lookup<'_>) -> Result<(), AllocError>
    ensures { OnOk result (Notes (looked_up others.now) seen.now (ids_in into.old) (ids_in into.new)) }
{
    for id in seen {
        note(into, id, others)?;
    }
    Ok(())
}

/// Compares what the other side lists of a stretch with the own ids there.
pub fn compare(
    alloc: Global,
    found: &mut Found,
    own: &[Id],
    listed: &[Id],
) -> Result<(), AllocError>
    ensures need { OnOk result (Notes own.now listed.now (ids_in found.old.need) (ids_in found.new.need)) }
    ensures have { OnOk result (Notes listed.now own.now (ids_in found.old.have) (ids_in found.new.have)) }
    ensures kept { (found.new.trusted ≡ found.old.trusted) × (found.new.most ≡ found.old.most) }
{
    let own_set = Lookup::of(alloc, own, listed.len())?;
    let listed_set = Lookup::of(alloc, listed, own.len())?;
    note_all(&mut found.need, listed, &own_set)?;
    note_all(&mut found.have, own, &listed_set)?;
    Ok(())
}

/// Makes sets of the ids where all is settled, or where there are so many that some stand there more than once. There are no
/// more own ids than items.
pub fn tidy(alloc: Global, found: &mut Found, items: usize, is_over: bool) -> Result<(), AllocError>
    ensures need { OnOk result ((i : Id) → Contains (ids_in found.new.need) i ↔ Contains (ids_in found.old.need) i) }
    ensures have { OnOk result ((i : Id) → Contains (ids_in found.new.have) i ↔ Contains (ids_in found.old.have) i) }
    ensures kept { (found.new.trusted ≡ found.old.trusted) × (found.new.most ≡ found.old.most) }
    ensures once { OnOk result (found.new.most < length (ids_in found.new.need) → Distinct (ids_in found.new.need)) }
    ensures sets { OnOk result (IsTrue is_over → IsSet found.new.need × IsSet found.new.have) }
{
    found.need.tidy(alloc, found.most, is_over)?;
    found.have.tidy(alloc, items, is_over)?;
    Ok(())
}
