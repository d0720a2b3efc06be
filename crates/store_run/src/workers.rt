//! Workers that do the same beside one another, each with an item of its own.

ghost use Rattle.std.specs.Thread.{IsSend, IsSync};

use std::alloc::Global;
use std::sync::Wait;
use std::thread::{Threads, join_mut};

/// What a worker does.
pub trait Duty<T> {
    fn work<R: Wait>(&self, rt: &R, alloc: Global, item: &mut T);
}

/// Does it with each item, each in a thread of its own, and waits for all.
#[cycle(workers)]
pub fn run_workers<R: Threads + Wait + Sync, T: Send, H: Duty<T> + Sync>(
    rt: &R,
    alloc: Global,
    duty: &H,
    items: &mut [T],
) {
    if items.is_empty() {
        return;
    }
    if items.len() == 1 {
        duty.work(rt, alloc, &mut items[0]);
        return;
    }
    let half = items.len() / 2;
    let (front, back) = items.split_at_mut(half);
    join_mut(
        rt,
        &mut ||
            requires { IsSync R.row × IsSend T.row × IsSync H.row }
        { run_workers(rt, alloc, duty, front) },
        &mut ||
            requires { IsSync R.row × IsSend T.row × IsSync H.row }
        { run_workers(rt, alloc, duty, back) },
    );
}
