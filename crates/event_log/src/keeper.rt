//! Who sees to it that events are kept.
ghost use Rattle.std.specs.Prelude.{◌≤◌, length, IfSome};

use crate::kept::{InMemory, Kept};
use event_store::{Naming, Placed};
use std::sync::Wait;

/// Who sees to it that events are kept before they are acknowledged.
pub trait Keeper<J: Naming> {
    /// What they are kept on.
    type On;

    /// Waits until what a desk told of is kept; `None` where it can't be.
    fn kept<W: Wait>(&self, rt: &W, placed: &Placed<J>) -> Option<Kept<J, Self::On>>
        ensures { IfSome result (λ k. length placed.now.list ≤ length k) };
}

/// Keeps events in memory alone, as long as their store is there.
#[derive(Clone, Copy)]
pub struct Unfiled;

impl<J: Naming> Keeper<J> for Unfiled {
    type On = InMemory;

    fn kept<W: Wait>(&self, _rt: &W, placed: &Placed<J>) -> Option<Kept<J, InMemory>> {
        Some(Kept::in_memory(placed))
    }
}
