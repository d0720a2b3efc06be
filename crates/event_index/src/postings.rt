//! Postings: each is a mark and the place of an event that has it, as one number, so that a run of them is sorted and searched
//! at the cost of plain numbers, and takes eight bytes for each.
ghost use Rattle.std.specs.Prelude.{◌≡◌, ◌≤◌, ◌<◌, ◌+◌, ◌^◌, ◌++◌, ◌∷◌, [], length, map, option_to_list, IfSome, IfOk, OnOk};
ghost use Rattle.std.specs.Arc.{arc_value};
ghost use Rattle.event_index.specs.Marks.{marks_of};
ghost use Rattle.event_index.specs.Postings.{posting, HavePostings};

use crate::mark::{author_mark, tag_mark};
use nostr_event::Event;
use std::alloc::{AllocError, Global};
use std::sync::Arc;

/// A place is below this.
pub const PLACES: u64 = 1 << 20;

// Puts the mark's posting for the place behind the others.
fn put_posting(postings: &mut Vec<u64>, mark: u64, place: usize) -> Result<(), AllocError>
    requires mark { mark < 2 ^ 44 }
    requires place { place < 2 ^ 20 }
    ensures { OnOk result (postings.new.items ≡ postings.old.items ++ posting mark place ∷ []) }
{
    postings.push(mark * PLACES + place as u64)?;
    Ok(())
}

// The same where there is a mark.
fn put_marked(postings: &mut Vec<u64>, mark: Option<u64>, place: usize) -> Result<(), AllocError>
    requires mark { IfSome mark (λ m. m < 2 ^ 44) }
    requires place { place < 2 ^ 20 }
    ensures { OnOk result (postings.new.items ≡ postings.old.items ++ map (λ m. posting m place) (option_to_list mark)) }
{
    match mark {
        Some(mark) => put_posting(postings, mark, place),
        None => Ok(()),
    }
}

// Puts the postings of the event at the place behind the others.
fn put_event(postings: &mut Vec<u64>, event: &Event, place: usize) -> Result<(), AllocError>
    requires { place < 2 ^ 20 }
    ensures { OnOk result (postings.new.items ≡ postings.old.items ++ map (λ m. posting m place) (marks_of event.now)) }
{
    put_posting(postings, author_mark(event.pubkey()), place)?;
    put_posting(postings, event.kind() as u64, place)?;
    for tag in event.tags().iter() {
        put_marked(postings, tag_mark(&tag), place)?;
    }
    Ok(())
}

/// The postings of the events, of which the first stands at `start`.
pub fn postings_of(
    alloc: Global,
    events: &[Arc<Event>],
    start: usize,
) -> Result<Vec<u64>, AllocError>
    requires { start + length events.now ≤ 2 ^ 20 }
    ensures { IfOk result (λ v. HavePostings start (map arc_value events.now) v.items) }
{
    let mut postings = Vec::new(alloc);
    for at in 0..events.len() {
        put_event(&mut postings, &events[at], start + at)?;
    }
    Ok(postings)
}
