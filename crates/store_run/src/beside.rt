//! What is done beside work, until that is over.

ghost use Rattle.std.specs.Thread.{IsSync};

use std::rt::Clock;
use std::sync::{Condvar, CondvarTimeouts, Mutex, Wait};
use std::thread::{Threads, join};
use std::time::Duration;

/// After how many milliseconds it is looked again for what nobody waits for.
pub const TICK: u64 = 100;

/// Whether work is over beside which something is done.
#[derive(Drop)]
pub struct Ending {
    over: Mutex<bool>,
    come: Condvar,
}

impl Ending {
    // The work goes on.
    fn new() -> Ending {
        Ending {
            over: Mutex::new(false),
            come: Condvar::new(),
        }
    }

    // The work is over.
    fn end<R: Wait>(&self, rt: &R) {
        let mut over = self.over.lock(rt);
        *over = true;
        drop(over);
        self.come.notify_all();
    }

    /// Whether the work is over, which is waited for as long as that.
    pub fn is_over<R: Wait + Clock>(&self, rt: &R, patience: Duration) -> bool {
        let over = self.over.lock(rt);
        let (over, _) = self
            .come
            .wait_timeout_while(rt, over, patience, |over| !*over);
        *over
    }
}

/// What is done beside work, until that is over.
pub trait Tend {
    /// Does it until the work is over.
    fn tend_on<R: Wait + Clock>(&self, rt: &R, ending: &Ending);
}

/// Does it in a thread of its own beside the work, and waits for both.
pub fn tend_beside<R: Threads + Wait + Clock + Sync, K: Tend + Sync, G: FnOnce() -> B, B>(
    rt: &R,
    tended: &K,
    work: G,
) -> B
    requires { G.pre work }
    ensures { G.post work result }
{
    let ending = Ending::new();
    let (_, done) = join(
        rt,
        ||
            requires { IsSync R.row × IsSync K.row }
        { tended.tend_on(rt, &ending) },
        ||
            requires { G.pre work }
        {
            let done = work();
            ending.end(rt);
            done
        },
    );
    done
}
