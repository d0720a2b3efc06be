//! The events file while connections are served: these are told of what is published.

use crate::guest::Guest;
use client_hall::Hall;
use event_store::{Desk, Naming};
use std::io::Write;
use std::rt::Clock;
use std::sync::Wait;
use std::thread::Threads;
use std::time::Duration;
use store_run::{Ending, Keeping, TICK, Tend, tend_beside};

/// How many times a second is waited for the first worker. Where no thread could be made there is none yet.
const STARTING: u32 = 10;

/// A hall, and where the events of its store are kept.
#[derive(Clone, Copy)]
struct KeptIn<'h, G, K, P> {
    hall: &'h Hall<G, K>,
    keeping: &'h P,
}

impl<'h, G, K, J: Naming, E: Write + Drop> Tend for KeptIn<'h, G, K, Keeping<J, E>> {
    fn tend_on<R: Wait + Clock>(&self, rt: &R, ending: &Ending) {
        for _ in 0..u64::MAX {
            if ending.is_over(rt, Duration::from_millis(TICK)) {
                return;
            }
            self.hall.tell(rt, self.keeping.tick(rt));
        }
    }
}

/// Keeps events beside the work, and tells the hall of them.
pub fn keep_in_hall<
    R: Threads + Wait + Clock + Sync,
    J: Naming + Send + Sync,
    D: Wait + Drop + Send,
    E: Write + Send + Drop,
    G: FnOnce() -> B,
    B,
>(rt: &R, hall: &Hall<Guest<J>, Desk<J, D>>, keeping: &Keeping<J, E>, work: G) -> B
    requires { G.pre work }
    ensures { G.post work result }
{
    tend_beside(rt, &KeptIn { hall, keeping }, work)
}

/// Whether a worker has begun, which is waited for, and serving isn't over.
fn is_begun<G, K, R: Wait + Clock>(rt: &R, hall: &Hall<G, K>) -> bool {
    for _ in 0..STARTING {
        if hall.is_over(rt, Duration::from_secs(1)) {
            return false;
        }
        if hall.has_begun() {
            return true;
        }
    }
    false
}

/// Does what nobody waits for until serving is over.
pub fn keep_meanwhile<G, K, J: Naming, E: Write + Drop, R: Wait + Clock>(
    rt: &R,
    hall: &Hall<G, K>,
    keeping: &Keeping<J, E>,
) {
    if !is_begun(rt, hall) {
        return;
    }
    for _ in 0..u64::MAX {
        if hall.is_over(rt, Duration::from_millis(TICK)) {
            return;
        }
        hall.tell(rt, keeping.tick(rt));
    }
}
