//! Chunks of what lists share.
ghost use Rattle.std.specs.Prelude.{◌≡◌, ◌<◌, [], ◌∷◌, ◌++◌, length, map, slice_get, Some, IfOk, OnOk, OnErr};
ghost use Rattle.std.specs.Arc.{arc_value};

use std::alloc::{AllocError, Global};
use std::marker::Model;
use std::sync::Arc;

/// As many items as a chunk of a list takes.
pub const CHUNK: usize = 128;

/// Some shared items. Contracts see them as their list.
#[derive(Drop)]
pub struct Chunk<T> {
    items: Vec<Arc<T>>,
}

impl<T> Model for Chunk<T> {
    ghost use Rattle.std.specs.Prelude.{List, map};
    ghost use Rattle.std.specs.Arc.{arc_value};

    ghost Value = { List T };

    ghost view = { λ c. map arc_value c.items.items };
}

impl<T: Drop> Chunk<T> {
    /// No items.
    pub fn new(alloc: Global) -> Chunk<T>
        ensures { result ≡ [] }
    {
        Chunk {
            items: Vec::new(alloc),
        }
    }

    /// How many items there are.
    pub fn len(&self) -> usize
        ensures { result ≡ length self.now }
    {
        self.items.len()
    }

    /// The item at a place, the first at 0.
    pub fn get(&self, i: usize) -> &Arc<T>
        requires { i < length self.now }
        ensures { slice_get self.now i ≡ Some (arc_value result.now) }
    {
        &self.items[i]
    }

    fn push(&mut self, item: &Arc<T>) -> Result<(), AllocError>
        ensures ok { OnOk result (self.new ≡ self.old ++ arc_value item.now ∷ []) }
        ensures err { OnErr result (self.new ≡ self.old) }
    {
        let item = Arc::try_clone(item)?;
        self.items.push(item)?;
        Ok(())
    }

    // The same items, with room for one more.
    fn copied(&self, alloc: Global) -> Result<Chunk<T>, AllocError>
        ensures { IfOk result (λ c. c ≡ self.now) }
    {
        Ok(Chunk {
            items: shared(alloc, self.items.as_slice())?,
        })
    }
}

/// The same, shared, with room for one more.
pub fn shared<T: Drop>(alloc: Global, items: &[Arc<T>]) -> Result<Vec<Arc<T>>, AllocError>
    ensures { IfOk result (λ v. map arc_value v.items ≡ map arc_value items.now) }
{
    let mut all = Vec::with_capacity(alloc, items.len() + 1)?;
    for item in items {
        all.push(Arc::try_clone(item)?)?;
    }
    Ok(all)
}

/// Puts the item behind the others of the chunk, which is copied where it is shared.
pub fn put_last<T: Drop>(
    chunk: &mut Arc<Chunk<T>>,
    alloc: Global,
    item: &Arc<T>,
) -> Result<(), AllocError>
    ensures ok { OnOk result (arc_value chunk.new ≡ arc_value chunk.old ++ arc_value item.now ∷ []) }
    ensures err { OnErr result (chunk.new ≡ chunk.old) }
{
    match Arc::get_mut(chunk) {
        Some(own) => own.push(item),
        None => {
            let mut copy = chunk.copied(alloc)?;
            copy.push(item)?;
            *chunk = Arc::new(alloc, copy)?;
            Ok(())
        }
    }
}
