//! The map.
ghost use Rattle.std.specs.Prelude.{◌≡◌, ℕ, None, IfOk};
ghost use Rattle.item_key.specs.declared.Id.{Id as AnId};
ghost use Rattle.id_map.specs.Places.{place_of, SetsPlace};

use crate::node::{Entry, LEVELS, Node, get_from, grown, put_into};
use item_key::Id;
use std::alloc::{AllocError, Global};
use std::sync::Arc;

/// Which place an id has. A map is never changed: `insert` gives another one, which shares with it all but
/// the nodes on the way to the id. So an older map costs only what has changed since. `with` takes the map itself.
#[derive(Drop)]
pub struct IdMap {
    root: Arc<Node>,
}

impl IdMap {
    /// A map without ids.
    pub fn new(alloc: Global) -> Result<IdMap, AllocError>
        ensures { IfOk result (λ m. (id : AnId) → place_of m id ≡ None) }
    {
        let root = Arc::new(alloc, Node::Leaf(Vec::new(alloc)))?;
        Ok(IdMap { root })
    }

    /// The place of the id, if it has one. It passes about as many nodes as the number of ids has digits in base
    /// 4, where ids are as good as random, and never more than 129.
    pub fn get(&self, id: &Id) -> Option<usize>
        ensures { result ≡ place_of self.now id.now }
    {
        get_from(&self.root, id, LEVELS)
    }

    /// The map in which the id has this place, and each other id the place that it has here. It copies the
    /// nodes that `get` passes, of at most 32 entries or 4 children each.
    pub fn insert(&self, alloc: Global, id: Id, place: usize) -> Result<IdMap, AllocError>
        ensures { IfOk result (λ m. SetsPlace id place self.now m) }
    {
        let node = grown(alloc, &self.root, Entry { id, place }, LEVELS)?;
        let root = Arc::new(alloc, node)?;
        Ok(IdMap { root })
    }

    /// The same of a map that is given up for it. Of the nodes it copies those alone that other maps share, and a leaf that
    /// is split or has the id.
    pub fn with(self, alloc: Global, id: Id, place: usize) -> Result<IdMap, AllocError>
        ensures { IfOk result (λ m. SetsPlace id place self m) }
    {
        let mut root = self.root;
        let entry = Entry { id, place };
        put_into(alloc, &mut root, entry, LEVELS)?;
        Ok(IdMap { root })
    }

    /// The same map, shared. It copies nothing.
    pub fn share(&self) -> Result<IdMap, AllocError>
        ensures { IfOk result (λ m. (id : AnId) → place_of m id ≡ place_of self.now id) }
    {
        let root = Arc::try_clone(&self.root)?;
        Ok(IdMap { root })
    }
}
