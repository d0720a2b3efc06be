//! Connections are served beside other work.

ghost use Rattle.std.specs.Thread.{IsSend, IsSync};

use crate::guest::Guest;
use crate::working::Serving;
use client_hall::Hall;
use event_store::{Desk, Naming, Reader};
use relay_core::RelayLimits;
use std::alloc::Global;
use std::io::Write;
use std::rt::Clock;
use std::sync::Wait;
use std::thread::{Threads, join};
use store_run::{Duty, Keeping, run_workers};

/// Workers do their duty, each with one of the items, beside other work in this thread.
fn run_beside<R: Threads + Wait + Sync, T: Send + Drop, H: Duty<T> + Sync, G: FnOnce() -> B, B>(
    rt: &R,
    alloc: Global,
    duty: &H,
    mut items: Vec<T>,
    work: G,
) -> B
    requires { G.pre work }
    ensures { G.post work result }
{
    let (_, done) = join(
        rt,
        ||
            requires { IsSync R.row × IsSend T.row × IsSync H.row }
        { run_workers(rt, alloc, duty, items.as_mut_slice()) },
        work,
    );
    done
}

/// Serves the hall's connections, each within the limits, beside other work in this thread, and gives what the work answers once both
/// have ended. There are as many workers as readers. A connection that ends by a fault touches no other. Where none can be accepted,
/// it is tried again after a pause.
pub fn serve_beside<
    R: Threads + Wait + Clock + Sync,
    J: Naming + Send + Sync,
    D: Wait + Drop + Send,
    E: Write + Send + Drop,
    G: FnOnce() -> B,
    B,
>(
    rt: &R,
    alloc: Global,
    hall: &Hall<Guest<J>, Desk<J, D>>,
    keeping: &Keeping<J, E>,
    limits: RelayLimits,
    readers: Vec<Reader<J>>,
    work: G,
) -> B
    requires { G.pre work }
    ensures { G.post work result }
{
    let serving = Serving {
        clock: rt,
        hall,
        keeping,
        limits,
    };
    run_beside(rt, alloc, &serving, readers, work)
}
