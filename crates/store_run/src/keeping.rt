//! The events file while the job goes on: what is published is appended to it, by whoever waits for that, and every now and then.

use crate::beside::{Ending, TICK, Tend, tend_beside};
use crate::refusal::{Refusal, write_refusal};
use event_file::EventsFile;
use event_log::{Keeper, Kept, Log, Medium};
use event_store::{Naming, Placed, Reader};
use mirror_settings::Syncing;
use std::alloc::Global;
use std::io;
use std::io::Write;
use std::rt::{Clock, Files};
use std::sync::{Mutex, Wait};
use std::thread::Threads;
use std::time::{Duration, Instant};

/// After how many milliseconds a file is synced again that isn't synced always.
const EVERY: u64 = 1_000;

/// After how many milliseconds it is tried again after a fault. Each further pause is twice as long, up to the last.
const FIRST_PAUSE: u64 = 100;

const LAST_PAUSE: u64 = 10_000;

/// A fault of the file that isn't over.
#[derive(Clone, Copy)]
struct Trouble {
    /// When it was last met, and how long it is left alone from then.
    met: Option<Instant>,
    pause: Duration,
}

/// Who writes.
struct Writing<J: Naming, E> {
    log: Log<J, EventsFile>,
    reader: Reader<J>,
    // Where faults are told.
    errors: E,
    // When it was last synced, where that is done every now and then.
    synced: Option<Instant>,
    trouble: Option<Trouble>,
}

// By hand, as a derived one is proved anew wherever a value is dropped.
impl<J: Naming, E: Drop> Drop for Writing<J, E> {
    fn drop(self) {
        let Self {
            log: _,
            reader: _,
            errors: _,
            synced: _,
            trouble: _,
        } = self;
    }
}

/// The events file, which one writes at a time.
#[derive(Drop)]
pub struct Keeping<J: Naming, E> {
    writing: Mutex<Writing<J, E>>,
    // What is kept, which is read beside who writes.
    kept: Mutex<Option<Kept<J, EventsFile>>>,
    fsync: Syncing,
}

/// Whether that long has gone by since. Where the clock told no time, it has.
fn is_past<C: Clock>(clock: &C, since: Option<Instant>, patience: Duration) -> bool {
    match (since, Instant::now(clock)) {
        (Some(since), Ok(now)) => now.duration_since(since) >= patience,
        _ => true,
    }
}

impl<J: Naming, E: Write + Drop> Writing<J, E> {
    // Whether it is left alone after a fault.
    fn is_resting<C: Clock>(&self, clock: &C) -> bool {
        match &self.trouble {
            Some(trouble) => !is_past(clock, trouble.met, trouble.pause),
            None => false,
        }
    }

    // A fault was met. It is told where it is the first.
    fn fail<C: Clock>(&mut self, clock: &C, error: &io::Error) {
        let pause = match &self.trouble {
            Some(trouble) => trouble
                .pause
                .saturating_mul(2)
                .min(Duration::from_millis(LAST_PAUSE)),
            None => {
                let _ = self
                    .errors
                    .writeln(format_args!("events file: can't be written: {error}"));
                let _ = self.errors.flush();
                Duration::from_millis(FIRST_PAUSE)
            }
        };
        let met = Instant::now(clock).ok();
        self.trouble = Some(Trouble { met, pause });
    }

    // Something was written. It is told where a fault was before.
    fn mend(&mut self) {
        if self.trouble.take().is_some() {
            let _ = self
                .errors
                .writeln(format_args!("events file: is written again"));
            let _ = self.errors.flush();
        }
    }

    // Appends what is published.
    fn append<C: Clock>(&mut self, clock: &C) -> Option<Kept<J, EventsFile>> {
        match self.log.append(&mut self.reader) {
            Ok(kept) => {
                self.mend();
                Some(kept)
            }
            Err(error) => {
                self.fail(clock, &error);
                None
            }
        }
    }

    // Syncs the file where that wasn't done for a second.
    fn settle<C: Clock>(&mut self, clock: &C) {
        if !is_past(clock, self.synced, Duration::from_millis(EVERY)) {
            return;
        }
        self.synced = Instant::now(clock).ok();
        if let Err(error) = self.log.settle() {
            self.fail(clock, &error);
        }
    }

    // Appends what is published, syncs the file, and tells how many events it has.
    fn finish(&mut self) -> io::Result<u64> {
        let kept = self.log.append(&mut self.reader)?;
        self.log.settle()?;
        Ok(kept.len())
    }
}

impl<J: Naming, E: Write + Drop> Keeping<J, E> {
    // Keeps events in a file that has the lines of those that the reader sees.
    fn new(
        alloc: Global,
        mut file: EventsFile,
        reader: Reader<J>,
        errors: E,
        fsync: Syncing,
    ) -> io::Result<Keeping<J, E>> {
        // What another run has written may not be synced yet.
        file.sync()?;
        let len = file.size()?;
        let log = Log::new(alloc, file, reader.front(), len, fsync == Syncing::Always);
        Ok(Keeping {
            writing: Mutex::new(Writing {
                log,
                reader,
                errors,
                synced: None,
                trouble: None,
            }),
            kept: Mutex::new(None),
            fsync,
        })
    }

    // What is kept, where it is as many events.
    fn reached<R: Wait>(&self, rt: &R, front: u64) -> Option<Kept<J, EventsFile>> {
        match &*self.kept.lock(rt) {
            Some(kept) if kept.len() >= front => Some(kept.again()),
            _ => None,
        }
    }

    // Appends what is published, unless that was done meanwhile or is left alone after a fault.
    fn reach<R: Wait, C: Clock>(
        &self,
        rt: &R,
        clock: &C,
        front: u64,
    ) -> Option<Kept<J, EventsFile>> {
        let mut writing = self.writing.lock(rt);
        let reached = self.reached(rt, front);
        if reached.is_some() || writing.is_resting(clock) {
            return reached;
        }
        let kept = writing.append(clock)?;
        *self.kept.lock(rt) = Some(kept.again());
        Some(kept)
    }

    /// Does what nobody waits for, and tells how many events are published.
    pub fn tick<R: Wait + Clock>(&self, rt: &R) -> u64 {
        let mut writing = self.writing.lock(rt);
        if !writing.is_resting(rt) {
            if let Some(kept) = writing.append(rt) {
                *self.kept.lock(rt) = Some(kept);
            }
            if self.fsync == Syncing::EverySecond {
                writing.settle(rt);
            }
        }
        writing.reader.front().len()
    }

    // Does what nobody waits for, until the work is over.
    fn tend<R: Wait + Clock>(&self, rt: &R, ending: &Ending) {
        for _ in 0..u64::MAX {
            if ending.is_over(rt, Duration::from_millis(TICK)) {
                return;
            }
            let _ = self.tick(rt);
        }
    }

    /// Writes and syncs all that is published, and tells how many events the file has. It is let go then.
    pub fn finish<R: Wait + Files>(self, rt: &R) -> Result<u64, Refusal> {
        let finished = self.writing.lock(rt).finish();
        match finished {
            Ok(count) => Ok(count),
            Err(error) => Err(write_refusal(&error)),
        }
    }
}

/// Keeps events in a file that has the lines of those that the reader sees, and nothing else. Its faults are told to `errors`.
pub fn keeping_of<J: Naming, E: Write + Drop>(
    alloc: Global,
    file: EventsFile,
    reader: Reader<J>,
    errors: E,
    fsync: Syncing,
) -> Result<Keeping<J, E>, Refusal> {
    match Keeping::new(alloc, file, reader, errors, fsync) {
        Ok(keeping) => Ok(keeping),
        Err(error) => Err(write_refusal(&error)),
    }
}

impl<J: Naming, E: Write + Drop> Tend for Keeping<J, E> {
    fn tend_on<R: Wait + Clock>(&self, rt: &R, ending: &Ending) {
        self.tend(rt, ending);
    }
}

/// Keeps events beside the work.
pub fn keep_beside<
    R: Threads + Wait + Clock + Sync,
    J: Naming + Send + Sync,
    E: Write + Send + Drop,
    G: FnOnce() -> B,
    B,
>(rt: &R, keeping: &Keeping<J, E>, work: G) -> B
    requires { G.pre work }
    ensures { G.post work result }
{
    tend_beside(rt, keeping, work)
}

/// Who waits for the file.
#[derive(Drop)]
pub struct Clerk<'c, 'k, C, J: Naming, E> {
    pub clock: &'c C,
    pub keeping: &'k Keeping<J, E>,
}

impl<'c, 'k, C: Clock, J: Naming, E: Write + Drop> Keeper<J> for Clerk<'c, 'k, C, J, E> {
    type On = EventsFile;

    fn kept<W: Wait>(&self, rt: &W, placed: &Placed<J>) -> Option<Kept<J, EventsFile>> {
        let front = placed.front();
        let kept = match self.keeping.reached(rt, front) {
            Some(kept) => kept,
            None => self.keeping.reach(rt, self.clock, front)?,
        };
        if kept.len() >= front {
            Some(kept)
        } else {
            None
        }
    }
}
