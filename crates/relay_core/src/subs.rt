//! Subscriptions, in the byte order of their names.
ghost use Rattle.std.specs.Prelude.{◌≡◌, ◌≤◌, length, OnOk, OnErr};
ghost use Rattle.std.specs.List.{insert};
ghost use Rattle.relay_core.specs.Kept.{is_before, other_subs, put as put_in_place};
ghost use Rattle.relay_core.specs.Due.{further as further_of, marked};

use nostr_wire::{Filters, Sub};
use std::alloc::AllocError;

/// A subscription (NIP-01).
pub struct Subscription {
    pub name: Sub,
    pub filters: Filters,
    /// How many of the published events were looked at.
    pub mark: usize,
}

// By hand, as a derived one is proved anew wherever a value is dropped.
impl Drop for Subscription {
    fn drop(self) {
        let Self {
            name: _,
            filters: _,
            mark: _,
        } = self;
    }
}

/// Ends the subscription of this name, if there is one.
pub fn end(subs: &mut Vec<Subscription>, name: &Sub)
    ensures { subs.new.items ≡ other_subs name.now subs.old.items }
{
    subs.retain(|sub| sub.name.as_str() != name.as_str());
}

// The first place whose name is above this one.
fn place_of(subs: &[Subscription], name: &Sub) -> usize
    ensures within { result ≤ length subs.now }
    ensures put { (s : Subscription) → s.name ≡ name.now → insert subs.now result s ≡ put_in_place s subs.now }
{
    for place in 0..subs.len() {
        if is_below(name, &subs[place].name) {
            return place;
        }
    }
    subs.len()
}

fn is_below(a: &Sub, b: &Sub) -> bool
    ensures { result ≡ is_before a.now b.now }
{
    a.as_str().cmp(b.as_str()).is_lt()
}

/// Puts a subscription of a new name in its place.
pub fn put(subs: &mut Vec<Subscription>, sub: Subscription) -> Result<(), AllocError>
    ensures ok { OnOk result (subs.new.items ≡ put_in_place sub subs.old.items) }
    ensures err { OnErr result (subs.new.items ≡ subs.old.items) }
{
    let place = place_of(subs.as_slice(), &sub.name);
    subs.insert(place, sub)?;
    Ok(())
}

// The further of two marks.
fn further(a: usize, b: usize) -> usize
    ensures { result ≡ further_of a b }
{
    if a < b { b } else { a }
}

/// Moves the mark of each subscription to the front, unless it is further.
pub fn mark_all(subs: &mut [Subscription], front: usize)
    ensures { subs.new ≡ marked front subs.old }
{
    for sub in subs.iter_mut() {
        sub.mark = further(sub.mark, front);
    }
}
