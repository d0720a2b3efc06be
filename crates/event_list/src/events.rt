//! Events in chunks, and these chunks in chunks.
ghost use Rattle.std.specs.Prelude.{◌≡◌, ◌<◌, ◌+◌, ◌^◌, [], ◌∷◌, ◌++◌, length, slice_get, Some, IfOk, OnOk, OnErr};
ghost use Rattle.std.specs.Arc.{arc_value};
ghost use Rattle.event_list.specs.Chunks.{joined, AreFull, IsChunked};

use crate::chunk::{CHUNK, Chunk, put_last};
use crate::chunks::Chunks;
use nostr_event::Event;
use std::alloc::{AllocError, Global};
use std::marker::Model;
use std::sync::Arc;

// Begins a new last chunk where the last one is full.
fn make_room(
    full: &mut Chunks<Chunk<Event>>,
    last: &mut Arc<Chunk<Event>>,
    alloc: Global,
) -> Result<(), AllocError>
    requires { IsChunked full.old (arc_value last.old) }
    ensures chunked { IsChunked full.new (arc_value last.new) }
    ensures list { joined full.new ++ arc_value last.new ≡ joined full.old ++ arc_value last.old }
    ensures room { OnOk result (length (arc_value last.new) < 128) }
{
    if last.len() < CHUNK {
        return Ok(());
    }
    let next = Arc::new(alloc, Chunk::new(alloc))?;
    full.push(alloc, last)?;
    *last = next;
    Ok(())
}

// How many events full chunks have.
fn full_len(chunks: &Chunks<Chunk<Event>>) -> usize
    requires full { AreFull chunks.now }
    requires few { length (joined chunks.now) < 2 ^ 64 }
    ensures { result ≡ length (joined chunks.now) }
{
    chunks.len() * CHUNK
}

// The event at a place in full chunks.
fn event_at(chunks: &Chunks<Chunk<Event>>, place: usize) -> &Arc<Event>
    requires full { AreFull chunks.now }
    requires within { place < length (joined chunks.now) }
    ensures { slice_get (joined chunks.now) place ≡ Some (arc_value result.now) }
{
    chunks.get(place / CHUNK).get(place % CHUNK)
}

/// Events in the order in which they were put in. Contracts see them as their list.
pub struct Events {
    full: Chunks<Chunk<Event>>,
    last: Arc<Chunk<Event>>,
}

// By hand, as a derived one is proved anew wherever a value is dropped.
impl Drop for Events {
    fn drop(self) {
        let Self { full: _, last: _ } = self;
    }
}

impl Model for Events {
    ghost use Rattle.std.specs.Prelude.{List, ◌++◌};
    ghost use Rattle.std.specs.Arc.{arc_value};
    ghost use Rattle.nostr_event.specs.EventView.{EventView};
    ghost use Rattle.event_list.specs.Chunks.{joined, IsChunked};

    ghost Value = { List EventView };

    ghost view = { λ l. joined l.full ++ arc_value l.last };

    ghost invariant = { λ l. IsChunked l.full (arc_value l.last) };
}

impl Events {
    pub fn new(alloc: Global) -> Result<Events, AllocError>
        ensures { IfOk result (λ l. l ≡ []) }
    {
        Ok(Events {
            full: Chunks::new(alloc)?,
            last: Arc::new(alloc, Chunk::new(alloc))?,
        })
    }

    /// How many events there are.
    pub fn len(&self) -> usize
        ensures { result ≡ length self.now }
    {
        full_len(&self.full) + self.last.len()
    }

    /// The event at a place, the first at 0.
    pub fn get(&self, place: usize) -> &Arc<Event>
        requires { place < length self.now }
        ensures { slice_get self.now place ≡ Some (arc_value result.now) }
    {
        let before = full_len(&self.full);
        if place < before {
            event_at(&self.full, place)
        } else {
            self.last.get(place - before)
        }
    }

    /// The same list. No event is copied, and no chunk.
    pub fn share(&self) -> Result<Events, AllocError>
        ensures { IfOk result (λ l. l ≡ self.now) }
    {
        Ok(Events {
            full: self.full.share()?,
            last: Arc::try_clone(&self.last)?,
        })
    }

    /// Puts the event behind all others. What is shared with other lists is copied: of the events one chunk at most, and once in 128
    /// times one chunk of chunks.
    pub fn push(&mut self, alloc: Global, event: &Arc<Event>) -> Result<(), AllocError>
        requires { length self.old + 1 < 2 ^ 64 }
        ensures ok { OnOk result (self.new ≡ self.old ++ arc_value event.now ∷ []) }
        ensures err { OnErr result (self.new ≡ self.old) }
    {
        make_room(&mut self.full, &mut self.last, alloc)?;
        put_last(&mut self.last, alloc, event)
    }
}
