//! Where connections are served side by side, and what they are served from.

use crate::client::Patience;
use crate::door::Door;
use crate::queue::{Errand, Idle, Next, Queue};
use crate::seat::Seat;
use mio::Waker;
use std::alloc::{AllocError, Global};
use std::rt::Clock;
use std::sync::atomic::{AtomicBool, AtomicU64, AtomicUsize, Ordering};
use std::sync::{Condvar, CondvarTimeouts, Mutex, MutexGuard, Wait};
use std::time::Duration;

/// In so many parts all clients are told what was published, side by side.
const PARTS: usize = 8;

/// After how many milliseconds a worker that watches looks whether nobody is at the door.
const WATCH: u64 = 5;

/// A hall with so many seats, and the desk of the store that connections are served from.
pub struct Hall<G, K> {
    seats: Vec<Seat<G>>,
    queue: Mutex<Queue>,
    // Where workers wait, and where the one who reads long texts does.
    has_errands: Condvar,
    has_long: Condvar,
    // Seats that connections have left.
    left: Mutex<Vec<usize>>,
    // How many events were published when it was last told, and whether each part of the clients is due to hear of them.
    published: AtomicU64,
    has_news: Vec<AtomicBool>,
    // How many seats of each part have connections that something may be published for.
    subscribed: Vec<AtomicUsize>,
    // How many connections come in, at most, and whether no further ones do.
    conns: u64,
    is_closed: AtomicBool,
    // Whether a worker has begun.
    has_worker: AtomicBool,
    // What wakes who is at the door.
    waker: Waker,
    patience: Patience,
    // Whether events are kept once they are synced, which may take long.
    syncs: bool,
    desk: Mutex<K>,
    // Held while a long text is read.
    turn: Mutex<()>,
    // Whether serving is over, and what is told then.
    over: Mutex<bool>,
    ending: Condvar,
}

// By hand, as a derived one is proved anew wherever a value is dropped.
impl<G: Drop, K: Drop> Drop for Hall<G, K> {
    fn drop(self) {
        let Self {
            seats: _,
            queue: _,
            has_errands: _,
            has_long: _,
            left: _,
            published: _,
            has_news: _,
            subscribed: _,
            conns: _,
            is_closed: _,
            has_worker: _,
            waker: _,
            patience: _,
            syncs: _,
            desk: _,
            turn: _,
            over: _,
            ending: _,
        } = self;
    }
}

/// So many seats that nobody has.
fn empty_seats<G: Drop>(alloc: Global, count: usize) -> Result<Vec<Seat<G>>, AllocError> {
    let mut seats = Vec::with_capacity(alloc, count)?;
    for _ in 0..count {
        seats.push(Seat::new())?;
    }
    Ok(seats)
}

/// For each part of the clients that it isn't due to hear of what is published, and that nobody of it is subscribed.
fn parts(alloc: Global) -> Result<(Vec<AtomicBool>, Vec<AtomicUsize>), AllocError> {
    let mut has_news = Vec::with_capacity(alloc, PARTS)?;
    let mut subscribed = Vec::with_capacity(alloc, PARTS)?;
    for _ in 0..PARTS {
        has_news.push(AtomicBool::new(false))?;
        subscribed.push(AtomicUsize::new(0))?;
    }
    Ok((has_news, subscribed))
}

impl<G: Drop, K: Drop> Hall<G, K> {
    /// A hall for so many connections, of which as many are served side by side as there are seats.
    pub fn new(
        alloc: Global,
        conns: u64,
        seats: usize,
        door: Door,
        waker: Waker,
        patience: Patience,
        syncs: bool,
        desk: K,
    ) -> Result<Hall<G, K>, AllocError> {
        let (has_news, subscribed) = parts(alloc)?;
        Ok(Hall {
            seats: empty_seats(alloc, seats)?,
            queue: Mutex::new(Queue::new(alloc, seats, PARTS, door)?),
            has_errands: Condvar::new(),
            has_long: Condvar::new(),
            left: Mutex::new(Vec::with_capacity(alloc, seats)?),
            published: AtomicU64::new(0),
            has_news,
            subscribed,
            conns,
            is_closed: AtomicBool::new(false),
            has_worker: AtomicBool::new(false),
            waker,
            patience,
            syncs,
            desk: Mutex::new(desk),
            turn: Mutex::new(()),
            over: Mutex::new(false),
            ending: Condvar::new(),
        })
    }
}

impl<G, K> Hall<G, K> {
    /// The desk, which others may use beside the connections.
    pub fn desk(&self) -> &Mutex<K> {
        &self.desk
    }

    /// Its seats, by their numbers.
    pub fn seats(&self) -> &[Seat<G>] {
        self.seats.as_slice()
    }

    pub(crate) fn conns(&self) -> u64 {
        self.conns
    }

    pub(crate) fn patience(&self) -> Patience {
        self.patience
    }

    /// Held while a long text is read.
    pub fn turn(&self) -> &Mutex<()> {
        &self.turn
    }

    pub(crate) fn is_closed(&self) -> bool {
        self.is_closed.load(Ordering::SeqCst)
    }

    /// Takes no further connections. Those that are here are served on.
    pub fn close(&self) {
        self.is_closed.store(true, Ordering::SeqCst);
        let _ = self.waker.wake();
    }

    /// A worker has begun. It tells whether that is the first, who reads long texts.
    pub fn begin<R: Wait>(&self, rt: &R) -> bool {
        let is_first = self.queue.lock(rt).begin();
        self.has_worker.store(true, Ordering::SeqCst);
        is_first
    }

    /// Whether a worker has begun.
    pub fn has_begun(&self) -> bool {
        self.has_worker.load(Ordering::SeqCst)
    }

    /// Serving is over.
    pub fn end<R: Wait>(&self, rt: &R) {
        self.queue.lock(rt).end();
        self.has_errands.notify_all();
        self.has_long.notify_all();
        *self.over.lock(rt) = true;
        self.ending.notify_all();
    }

    /// Whether serving is over, which is waited for as long as `patience`.
    pub fn is_over<R: Wait + Clock>(&self, rt: &R, patience: Duration) -> bool {
        let over = self.over.lock(rt);
        let (over, waited) = self
            .ending
            .wait_timeout_while(rt, over, patience, |over| !*over);
        drop(over);
        !waited.timed_out()
    }

    // All who wait look what there is to do.
    fn rouse(&self) {
        self.has_errands.notify_all();
        self.has_long.notify_all();
        let _ = self.waker.wake();
    }

    // One who waits looks what there is to do.
    fn wake(&self, idle: Option<Idle>) {
        match idle {
            Some(Idle::Reader) => self.has_long.notify_one(),
            Some(Idle::Other) => self.has_errands.notify_one(),
            None => {}
        }
    }

    // Puts it into the queue. Who does so looks there next. For a long text that isn't enough, which one worker alone reads: it may be
    // at the door.
    fn queue<R: Wait>(&self, rt: &R, errand: Errand) {
        let mut queue = self.queue.lock(rt);
        queue.put(errand);
        let reader = queue.idle_reader();
        drop(queue);
        if matches!(errand, Errand::Long(_)) {
            self.wake(reader);
            if reader.is_none() {
                let _ = self.waker.wake();
            }
        }
    }

    // Puts a turn of the connection in a seat into the queue.
    fn queue_turn<R: Wait>(&self, rt: &R, number: usize, seat: &Seat<G>) {
        if seat.is_long() {
            self.queue(rt, Errand::Long(number));
        } else if seat.is_slow() {
            self.queue(rt, Errand::Slow(number));
        } else {
            self.queue(rt, Errand::Turn(number));
        }
    }

    // The connection in a seat is due a turn.
    pub(crate) fn call<R: Wait>(&self, rt: &R, number: usize) {
        if let Some(seat) = self.seats.get(number) {
            if seat.call(rt) {
                self.queue_turn(rt, number, seat);
            }
        }
    }

    /// A turn of the connection in a seat is over. It may be due another.
    pub fn end_turn<R: Wait>(&self, rt: &R, number: usize, is_ready: bool) {
        if let Some(seat) = self.seats.get(number) {
            if seat.end(rt, is_ready) {
                self.queue_turn(rt, number, seat);
            }
        }
    }

    /// So many events are published. Where that is more than was told before, all clients are due to hear of them. It tells whether
    /// anything is due.
    pub fn publish<R: Wait>(&self, rt: &R, published: u64) -> bool {
        if self.published.fetch_max(published, Ordering::SeqCst) >= published {
            return false;
        }
        let mut is_due = false;
        for (part, subscribed) in self.subscribed.iter().enumerate() {
            if subscribed.load(Ordering::SeqCst) > 0 && self.is_news(part) {
                self.queue(rt, Errand::News(part));
                is_due = true;
            }
        }
        is_due
    }

    /// The same by who is no worker of the hall.
    pub fn tell<R: Wait>(&self, rt: &R, published: u64) {
        if self.publish(rt, published) {
            self.rouse();
        }
    }

    // Whether it is news for a part of the clients that it is due to hear of what is published.
    fn is_news(&self, part: usize) -> bool {
        match self.has_news.get(part) {
            Some(has_news) => !has_news.swap(true, Ordering::SeqCst),
            None => false,
        }
    }

    /// Whether more is published than so many events, as far as was told.
    pub fn has_more(&self, seen: u64) -> bool {
        self.published.load(Ordering::SeqCst) > seen
    }

    /// Notes what is known of the connection in a seat behind a turn: whether something may be published for it, and whether bytes wait
    /// until its client takes them.
    pub fn note(&self, number: usize, is_subscribed: bool, is_blocked: bool) {
        let part = number.checked_div(self.part_size()).unwrap_or(0);
        let (Some(seat), Some(count)) = (self.seats.get(number), self.subscribed.get(part)) else {
            return;
        };
        let was_subscribed = seat.note(is_subscribed, is_blocked);
        if is_subscribed && !was_subscribed {
            count.fetch_add(1, Ordering::SeqCst);
        } else if was_subscribed && !is_subscribed {
            count.fetch_sub(1, Ordering::SeqCst);
        }
    }

    // How many seats a part of the clients has.
    fn part_size(&self) -> usize {
        self.seats.len().div_ceil(PARTS).max(1)
    }

    /// The seats of a part of the clients, who hear of all that is published by now.
    pub fn seats_of(&self, part: usize) -> &[Seat<G>] {
        if let Some(has_news) = self.has_news.get(part) {
            has_news.store(false, Ordering::SeqCst);
        }
        let size = self.part_size();
        let from = part.saturating_mul(size).min(self.seats.len());
        let to = from.saturating_add(size).min(self.seats.len());
        &self.seats[from..to]
    }

    /// The number of the first of these seats.
    pub fn first_of(&self, part: usize) -> usize {
        part.saturating_mul(self.part_size())
    }

    /// A seat was left.
    pub fn leave<R: Wait>(&self, rt: &R, number: usize) {
        let _ = self.left.lock(rt).push(number);
        let _ = self.waker.wake();
    }

    // A seat that was left, if there is one.
    pub(crate) fn left<R: Wait>(&self, rt: &R) -> Option<usize> {
        self.left.lock(rt).pop()
    }

    /// What a worker does next, who reads long texts or doesn't. That is waited for.
    pub fn next<R: Wait + Clock>(&self, rt: &R, reads_long: bool) -> Next {
        for _ in 0..u64::MAX {
            let mut queue = self.queue.lock(rt);
            if let Some(next) = queue.next(reads_long) {
                let wanted = queue.wanted();
                drop(queue);
                self.wake(wanted);
                return next;
            }
            self.wait(rt, queue, reads_long);
        }
        Next::End
    }

    // Waits until a worker may have something to do.
    fn wait<R: Wait + Clock>(&self, rt: &R, mut queue: MutexGuard<'_, Queue>, reads_long: bool) {
        let place = if reads_long {
            &self.has_long
        } else {
            &self.has_errands
        };
        let watches = queue.begin_waiting(reads_long);
        let mut queue = if watches {
            let patience = Duration::from_millis(WATCH);
            let (queue, _) = place.wait_timeout_while(
                rt,
                queue,
                patience,
                |queue| !queue.has_next(reads_long),
            );
            queue
        } else {
            place.wait_while(rt, queue, |queue| !queue.has_next(reads_long))
        };
        queue.end_waiting(reads_long, watches);
    }

    /// A worker leaves the door.
    pub fn leave_door<R: Wait>(&self, rt: &R, door: Door) {
        self.queue.lock(rt).leave_door(door);
    }

    /// A worker waits until events are kept. Where that may take long, another goes to the door meanwhile, if nobody is there.
    pub fn wait_aside<R: Wait>(&self, rt: &R) {
        if self.syncs {
            let wanted = self.queue.lock(rt).wanted_at_door();
            self.wake(wanted);
        }
    }

    /// A slow turn is over.
    pub fn end_slow<R: Wait>(&self, rt: &R) {
        self.queue.lock(rt).end_slow();
    }
}
