//! What is due to a hall's connections, and which worker does what.

use crate::door::Door;
use std::alloc::{AllocError, Global};
use std::collections::VecDeque;

/// So many errands are begun, at most, before it is looked again who is ready at the door.
const MOST_ERRANDS: usize = 16;

/// What is due.
#[derive(Clone, Copy)]
pub enum Errand {
    /// A turn of the connection in this seat.
    Turn(usize),
    /// The same of one whose last turn took long.
    Slow(usize),
    /// The same of one whose last turn ended before a long text or within one.
    Long(usize),
    /// To tell one part of all clients what was published for them.
    News(usize),
}

/// What a worker does next.
#[derive(Drop)]
pub enum Next {
    /// What is due.
    Errand(Errand),
    /// It sees who is ready at the door. It waits there, unless errands are left.
    Door(Door, bool),
    /// Serving is over.
    End,
}

/// A worker that waits for something to do.
#[derive(Clone, Copy)]
pub enum Idle {
    /// The one who reads long texts.
    Reader,
    /// One of the others.
    Other,
}

/// What is due, in its order. Slow turns are apart, and half of the workers are kept for the others. Turns with a long text are
/// apart too: one worker alone reads those, so that its thread alone has the memory for them.
///
/// A worker that has nothing to do waits at the door, if nobody is there, and does the first of what it finds there itself: so what
/// one client asks wakes one thread. Where that takes long nobody is at the door meanwhile, so that another worker, who watches,
/// looks for that every now and then.
pub struct Queue {
    errands: VecDeque<Errand>,
    slow: VecDeque<usize>,
    long: VecDeque<usize>,
    // How many workers there are, and how many are at a slow turn.
    workers: usize,
    busy: usize,
    is_over: bool,
    // None while a worker is there.
    door: Option<Door>,
    // How many errands were begun since one was there.
    begun: usize,
    // How many workers wait for something to do, whether the one who reads long texts does, and whether one of them all watches.
    idle: usize,
    is_reader_idle: bool,
    is_watched: bool,
    // Whether the door was left since it was last watched.
    is_left: bool,
}

// By hand, as a derived one is proved anew wherever a value is dropped.
impl Drop for Queue {
    fn drop(self) {
        let Self {
            errands: _,
            slow: _,
            long: _,
            workers: _,
            busy: _,
            is_over: _,
            door: _,
            begun: _,
            idle: _,
            is_reader_idle: _,
            is_watched: _,
            is_left: _,
        } = self;
    }
}

impl Queue {
    /// Nothing is due to the connections in so many seats, all of whom are told what is published in so many parts.
    pub fn new(alloc: Global, seats: usize, parts: usize, door: Door) -> Result<Queue, AllocError> {
        Ok(Queue {
            // Each seat stands in it once at most, and so does each part.
            errands: VecDeque::with_capacity(alloc, seats.saturating_add(parts))?,
            slow: VecDeque::with_capacity(alloc, seats)?,
            long: VecDeque::with_capacity(alloc, seats)?,
            workers: 0,
            busy: 0,
            is_over: false,
            door: Some(door),
            begun: 0,
            idle: 0,
            is_reader_idle: false,
            is_watched: false,
            is_left: false,
        })
    }

    /// A worker has begun. It tells whether that is the first.
    pub fn begin(&mut self) -> bool {
        self.workers = self.workers.saturating_add(1);
        self.workers == 1
    }

    /// Serving is over.
    pub fn end(&mut self) {
        self.is_over = true;
    }

    /// It is due.
    pub fn put(&mut self, errand: Errand) {
        let _ = match errand {
            Errand::Slow(number) => self.slow.push_back(number).is_ok(),
            Errand::Long(number) => self.long.push_back(number).is_ok(),
            other => self.errands.push_back(other).is_ok(),
        };
    }

    // Whether a slow turn may begin.
    fn may_be_slow(&self) -> bool {
        !self.slow.is_empty() && self.busy < (self.workers / 2).max(1)
    }

    // Whether something is due, for one who reads long texts or doesn't.
    fn is_ready(&self, reads_long: bool) -> bool {
        !self.errands.is_empty() || self.may_be_slow() || (reads_long && !self.long.is_empty())
    }

    /// Whether a worker has something to do, who reads long texts or doesn't.
    pub fn has_next(&self, reads_long: bool) -> bool {
        self.is_over || self.door.is_some() || self.is_ready(reads_long)
    }

    // What is due next, if anything is.
    fn take(&mut self, reads_long: bool) -> Option<Errand> {
        if reads_long && !self.long.is_empty() {
            return self.long.pop_front().map(Errand::Long);
        }
        if self.may_be_slow() {
            self.busy = self.busy.saturating_add(1);
            return self.slow.pop_front().map(Errand::Slow);
        }
        self.errands.pop_front()
    }

    /// What a worker does next, if it has anything to do.
    pub fn next(&mut self, reads_long: bool) -> Option<Next> {
        if self.is_over {
            return Some(Next::End);
        }
        if self.door.is_none() || self.begun < MOST_ERRANDS {
            if let Some(errand) = self.take(reads_long) {
                self.begun = self.begun.saturating_add(1);
                return Some(Next::Errand(errand));
            }
        }
        let door = self.door.take()?;
        self.begun = 0;
        Some(Next::Door(door, self.is_ready(reads_long)))
    }

    /// A slow turn is over.
    pub fn end_slow(&mut self) {
        self.busy = self.busy.saturating_sub(1);
    }

    /// A worker leaves the door.
    pub fn leave_door(&mut self, door: Door) {
        self.door = Some(door);
        self.is_left = true;
    }

    /// Who reads long texts, if that one waits.
    pub fn idle_reader(&self) -> Option<Idle> {
        if self.is_reader_idle {
            Some(Idle::Reader)
        } else {
            None
        }
    }

    // One who waits, if there is any.
    fn idle_one(&self) -> Option<Idle> {
        if self.idle > 0 {
            return Some(Idle::Other);
        }
        self.idle_reader()
    }

    /// Who is to look what there is to do, of those that wait.
    pub fn wanted(&self) -> Option<Idle> {
        if self.is_ready(false) || (self.door.is_some() && !self.is_watched) {
            self.idle_one()
        } else {
            None
        }
    }

    /// Who may go to the door, of those that wait, where nobody is there.
    pub fn wanted_at_door(&self) -> Option<Idle> {
        if self.door.is_some() {
            self.idle_one()
        } else {
            None
        }
    }

    /// A worker begins to wait, who reads long texts or doesn't. It tells whether that one watches.
    pub fn begin_waiting(&mut self, reads_long: bool) -> bool {
        if reads_long {
            self.is_reader_idle = true;
        } else {
            self.idle = self.idle.saturating_add(1);
        }
        let watches = self.is_left && !self.is_watched;
        if watches {
            self.is_left = false;
            self.is_watched = true;
        }
        watches
    }

    /// It waits no more.
    pub fn end_waiting(&mut self, reads_long: bool, watches: bool) {
        if reads_long {
            self.is_reader_idle = false;
        } else {
            self.idle = self.idle.saturating_sub(1);
        }
        if watches {
            self.is_watched = false;
        }
    }
}
