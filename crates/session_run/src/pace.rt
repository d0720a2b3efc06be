//! How fast fetches go on, and streams that fail where one is too slow.

use std::io::{self, Error, ErrorKind, Read, Write};
use std::net::TcpStream;
use std::rt::Clock;
use std::sync::{Arc, Mutex, Wait};
use std::time::{Duration, Instant};
use ws_link::TOO_SLOW;

/// For how many seconds a fetch may be slow.
const PATIENCE: u64 = 10;

/// For how many milliseconds at most it is waited before it is looked how fast a fetch goes on.
const LOOK: u64 = 1_000;

/// What a fetch has brought since it began.
#[derive(Clone, Copy, Default)]
pub struct Pace {
    // None where no fetch has begun, or the clock told no time.
    began: Option<Instant>,
    bytes: u64,
}

/// The pace of a source's fetches, which its stream keeps.
pub type SharedPace = Arc<Mutex<Pace>>;

impl Pace {
    /// A fetch begins.
    pub fn begin(&mut self, now: Option<Instant>) {
        self.began = now;
        self.bytes = 0;
    }

    // So many bytes came.
    fn count(&mut self, bytes: usize) {
        self.bytes = self.bytes.saturating_add(bytes as u64);
    }

    // Whether it went on for long, and brought less than so many bytes a second.
    fn is_slow(&self, now: Option<Instant>, least: u64) -> bool {
        match (self.began, now) {
            (Some(began), Some(now)) => {
                let seconds = now.duration_since(began).as_secs();
                seconds >= PATIENCE && self.bytes < least.saturating_mul(seconds)
            }
            _ => false,
        }
    }
}

/// A relay's stream, whose reads fail where a fetch brings too little.
#[derive(Drop)]
pub struct Paced<'a, R> {
    stream: TcpStream,
    rt: &'a R,
    pace: SharedPace,
    // How many bytes a second it has to bring.
    least: u64,
    // How often in turn a read waits as long as the stream does.
    looks: u64,
}

impl<'a, R> Paced<'a, R> {
    /// A stream whose reads and writes wait so long at most, and fail where a fetch brings fewer bytes a second than `least`.
    pub fn new(
        rt: &'a R,
        stream: TcpStream,
        pace: SharedPace,
        timeout: Duration,
        least: u64,
    ) -> Paced<'a, R> {
        let millis = timeout
            .as_secs()
            .saturating_mul(1_000)
            .saturating_add(u64::from(timeout.subsec_millis()));
        let looks = millis.div_ceil(LOOK).max(1);
        let _ = stream.set_read_timeout(Some(Duration::from_millis((millis / looks).max(1))));
        Paced {
            stream,
            rt,
            pace,
            least,
            looks,
        }
    }
}

/// Whether nothing came in time.
fn is_late(read: &io::Result<usize>) -> bool {
    match read {
        Ok(_) => false,
        Err(error) => matches!(error.kind(), ErrorKind::WouldBlock | ErrorKind::TimedOut),
    }
}

impl<R: Wait + Clock> Paced<'_, R> {
    // Counts what was read, and tells whether the fetch is too slow.
    fn count(&self, read: &io::Result<usize>) -> bool {
        let mut pace = self.pace.lock(self.rt);
        if let Ok(bytes) = read {
            pace.count(*bytes);
        }
        pace.is_slow(Instant::now(self.rt).ok(), self.least)
    }
}

impl<R: Wait + Clock> Read for Paced<'_, R> {
    fn read(&mut self, buf: &mut [u8]) -> io::Result<usize> {
        for _ in 1..self.looks {
            let read = self.stream.read(buf);
            if self.count(&read) {
                return Err(Error::from(TOO_SLOW));
            }
            if !is_late(&read) {
                return read;
            }
        }
        let read = self.stream.read(buf);
        if self.count(&read) {
            return Err(Error::from(TOO_SLOW));
        }
        read
    }
}

impl<R> Write for Paced<'_, R> {
    fn write(&mut self, buf: &[u8]) -> io::Result<usize> {
        self.stream.write(buf)
    }

    fn flush(&mut self) -> io::Result<()> {
        self.stream.flush()
    }
}
