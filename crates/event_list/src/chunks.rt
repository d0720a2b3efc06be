//! Lists in chunks, which lists share.
ghost use Rattle.std.specs.Prelude.{◌≡◌, ◌<◌, ◌+◌, ◌^◌, [], ◌∷◌, ◌++◌, length, map, slice_get, Some, IfOk, OnOk, OnErr};
ghost use Rattle.std.specs.Arc.{arc_value};
ghost use Rattle.event_list.specs.Chunks.{joined, AreFull, IsChunked};

use crate::chunk::{CHUNK, Chunk, put_last, shared};
use std::alloc::{AllocError, Global};
use std::marker::Model;
use std::sync::Arc;

// Puts the chunk behind the others, whose list is copied where it is shared.
fn put_chunk<T: Drop>(
    chunks: &mut Arc<Vec<Arc<Chunk<T>>>>,
    alloc: Global,
    chunk: &Arc<Chunk<T>>,
) -> Result<(), AllocError>
    ensures ok { OnOk result (map arc_value (arc_value chunks.new).items ≡ map arc_value (arc_value chunks.old).items ++ arc_value chunk.now ∷ []) }
    ensures err { OnErr result (map arc_value (arc_value chunks.new).items ≡ map arc_value (arc_value chunks.old).items) }
{
    let chunk = Arc::try_clone(chunk)?;
    match Arc::get_mut(chunks) {
        Some(own) => {
            own.push(chunk)?;
            Ok(())
        }
        None => {
            let mut copy = shared(alloc, chunks.as_slice())?;
            copy.push(chunk)?;
            *chunks = Arc::new(alloc, copy)?;
            Ok(())
        }
    }
}

// Begins a new last chunk where the last one is full.
fn make_room<T: Drop>(
    full: &mut Arc<Vec<Arc<Chunk<T>>>>,
    last: &mut Arc<Chunk<T>>,
    alloc: Global,
) -> Result<(), AllocError>
    requires { IsChunked (map arc_value (arc_value full.old).items) (arc_value last.old) }
    ensures chunked { IsChunked (map arc_value (arc_value full.new).items) (arc_value last.new) }
    ensures list { joined (map arc_value (arc_value full.new).items) ++ arc_value last.new ≡ joined (map arc_value (arc_value full.old).items) ++ arc_value last.old }
    ensures room { OnOk result (length (arc_value last.new) < 128) }
{
    if last.len() < CHUNK {
        return Ok(());
    }
    let next = Arc::new(alloc, Chunk::new(alloc))?;
    put_chunk(full, alloc, last)?;
    *last = next;
    Ok(())
}

// How many items full chunks have.
fn full_len<T: Drop>(chunks: &[Arc<Chunk<T>>]) -> usize
    requires full { AreFull (map arc_value chunks.now) }
    requires few { length (joined (map arc_value chunks.now)) < 2 ^ 64 }
    ensures { result ≡ length (joined (map arc_value chunks.now)) }
{
    chunks.len() * CHUNK
}

// The item at a place in full chunks.
fn item_at<T: Drop>(chunks: &[Arc<Chunk<T>>], place: usize) -> &Arc<T>
    requires full { AreFull (map arc_value chunks.now) }
    requires within { place < length (joined (map arc_value chunks.now)) }
    ensures { slice_get (joined (map arc_value chunks.now)) place ≡ Some (arc_value result.now) }
{
    chunks[place / CHUNK].get(place % CHUNK)
}

/// Shared items in the order in which they were put in. One more copies the last chunk of a shared list, and once in 128 times the
/// list of its chunks. Contracts see them as their list.
#[derive(Drop)]
pub struct Chunks<T> {
    full: Arc<Vec<Arc<Chunk<T>>>>,
    last: Arc<Chunk<T>>,
}

impl<T> Model for Chunks<T> {
    ghost use Rattle.std.specs.Prelude.{List, ◌++◌, map};
    ghost use Rattle.std.specs.Arc.{arc_value};
    ghost use Rattle.event_list.specs.Chunks.{joined, IsChunked};

    ghost Value = { List T };

    ghost view = { λ l. joined (map arc_value (arc_value l.full).items) ++ arc_value l.last };

    ghost invariant = { λ l. IsChunked (map arc_value (arc_value l.full).items) (arc_value l.last) };
}

impl<T: Drop> Chunks<T> {
    pub fn new(alloc: Global) -> Result<Chunks<T>, AllocError>
        ensures { IfOk result (λ l. l ≡ []) }
    {
        Ok(Chunks {
            full: Arc::new(alloc, Vec::new(alloc))?,
            last: Arc::new(alloc, Chunk::new(alloc))?,
        })
    }

    /// How many items there are.
    pub fn len(&self) -> usize
        ensures { result ≡ length self.now }
    {
        full_len(self.full.as_slice()) + self.last.len()
    }

    /// The item at a place, the first at 0.
    pub fn get(&self, place: usize) -> &Arc<T>
        requires { place < length self.now }
        ensures { slice_get self.now place ≡ Some (arc_value result.now) }
    {
        let before = full_len(self.full.as_slice());
        if place < before {
            item_at(self.full.as_slice(), place)
        } else {
            self.last.get(place - before)
        }
    }

    /// The same list. No item is copied, and no chunk.
    pub fn share(&self) -> Result<Chunks<T>, AllocError>
        ensures { IfOk result (λ l. l ≡ self.now) }
    {
        Ok(Chunks {
            full: Arc::try_clone(&self.full)?,
            last: Arc::try_clone(&self.last)?,
        })
    }

    /// Puts the item behind all others.
    pub fn push(&mut self, alloc: Global, item: &Arc<T>) -> Result<(), AllocError>
        requires { length self.old + 1 < 2 ^ 64 }
        ensures ok { OnOk result (self.new ≡ self.old ++ arc_value item.now ∷ []) }
        ensures err { OnErr result (self.new ≡ self.old) }
    {
        make_room(&mut self.full, &mut self.last, alloc)?;
        put_last(&mut self.last, alloc, item)
    }
}
