//! How a store begins.
ghost use Rattle.std.specs.Prelude.{◌≡◌, ◌<◌, ◌≤◌, [], All, IfOk, IfErr, vec_len};
ghost use Rattle.event_store.specs.Opening.{RefusesOnlyFor};

use crate::blank::{Blank, Front};
use crate::desk::Desk;
use crate::name::Naming;
use crate::reader::Reader;
use std::alloc::Global;
use std::sync::Wait;

/// Why no store was opened.
#[derive(Clone, Copy)]
pub enum StoreFault {
    /// None, or more than 1,024.
    Readers,
    /// There was no place for a reader.
    Place,
    /// A growth was refused.
    Memory,
}

// The most readers that a store has.
const MOST_READERS: usize = 1024;

// The most events that a store takes.
const MOST: usize = 1_000_000;

/// Opens an empty store that takes 1,000,000 events, with 1 to 1,024 readers that have seen nothing.
pub fn open_store<J: Naming, R: Wait + Drop>(
    rt: R,
    alloc: Global,
    blank: Blank,
    readers: usize,
) -> Result<(Desk<J, R>, Vec<Reader<J>>), StoreFault>
    requires book { blank ≡ J.book }
    requires most { J.most ≡ 1000000 }
    ensures opened { IfOk result (λ s. (s.0 ≡ []) × (vec_len s.1 ≡ readers) × All (λ r. r ≡ []) s.1.items) }
    ensures refused { IfErr result (RefusesOnlyFor readers) }
    ensures within { IfOk result (λ _. (0 < readers) × (readers < 1025)) }
{
    open_small(rt, alloc, blank, readers, MOST)
}

/// Opens an empty store that takes so many events, with 1 to 1,024 readers that have seen nothing.
pub fn open_small<J: Naming, R: Wait + Drop>(
    rt: R,
    alloc: Global,
    blank: Blank,
    readers: usize,
    most: usize,
) -> Result<(Desk<J, R>, Vec<Reader<J>>), StoreFault>
    requires book { blank ≡ J.book }
    requires most { (most ≡ J.most) × (0 < most) × (most ≤ 1000000) }
    ensures opened { IfOk result (λ s. (s.0 ≡ []) × (vec_len s.1 ≡ readers) × All (λ r. r ≡ []) s.1.items) }
    ensures refused { IfErr result (RefusesOnlyFor readers) }
    ensures within { IfOk result (λ _. (0 < readers) × (readers < 1025)) }
{
    if readers == 0 || readers > MOST_READERS {
        return Err(StoreFault::Readers);
    }
    let (head, front) = blank.named::<J>();
    let Ok(desk) = Desk::open(rt, alloc, head, &front, readers, most) else {
        return Err(StoreFault::Memory);
    };
    let all = deal(&desk, alloc, &front, readers)?;
    Ok((desk, all))
}

fn deal<J: Naming, R: Wait + Drop>(
    desk: &Desk<J, R>,
    alloc: Global,
    front: &Front<J>,
    readers: usize,
) -> Result<Vec<Reader<J>>, StoreFault>
    requires { front.now ≡ [] }
    ensures dealt { IfOk result (λ v. (vec_len v ≡ readers) × All (λ r. r ≡ []) v.items) }
    ensures refused { IfErr result (λ e. ¬ (e ≡ StoreFault.Readers)) }
{
    let mut all = Vec::new(alloc);
    for i in 0..readers {
        let Ok(reader) = desk.reader(front) else {
            return Err(StoreFault::Place);
        };
        if all.push(reader).is_err() {
            return Err(StoreFault::Memory);
        }
    }
    Ok(all)
}
