//! Streams that end with the job.

use crate::wishes::Wishes;
use std::io::{self, Error, ErrorKind, Read, Write};
use std::net::TcpStream;
use std::sync::Wait;
use std::time::Duration;

/// For how many milliseconds at most it is waited before it is looked whether the job is over.
const LOOK: u64 = 1_000;

/// A relay's stream, whose reads fail once the job is over.
#[derive(Drop)]
pub struct Heeding<'a, R> {
    stream: TcpStream,
    rt: &'a R,
    wishes: &'a Wishes,
    // How often in turn a read waits as long as the stream does.
    looks: u64,
}

impl<'a, R> Heeding<'a, R> {
    /// A stream whose reads wait so long at most.
    pub fn new(
        rt: &'a R,
        stream: TcpStream,
        wishes: &'a Wishes,
        timeout: Duration,
    ) -> Heeding<'a, R> {
        let millis = timeout
            .as_secs()
            .saturating_mul(1_000)
            .saturating_add(u64::from(timeout.subsec_millis()));
        let looks = millis.div_ceil(LOOK).max(1);
        let _ = stream.set_read_timeout(Some(Duration::from_millis((millis / looks).max(1))));
        Heeding {
            stream,
            rt,
            wishes,
            looks,
        }
    }
}

/// Whether nothing came in time.
fn is_late(read: &io::Result<usize>) -> bool {
    match read {
        Ok(_) => false,
        Err(error) => matches!(error.kind(), ErrorKind::WouldBlock | ErrorKind::TimedOut),
    }
}

impl<R: Wait> Read for Heeding<'_, R> {
    fn read(&mut self, buf: &mut [u8]) -> io::Result<usize> {
        for _ in 0..self.looks {
            if self.wishes.is_over(self.rt) {
                return Err(Error::from(ErrorKind::ConnectionAborted));
            }
            let read = self.stream.read(buf);
            if !is_late(&read) {
                return read;
            }
        }
        Err(Error::from(ErrorKind::TimedOut))
    }
}

impl<R> Write for Heeding<'_, R> {
    fn write(&mut self, buf: &[u8]) -> io::Result<usize> {
        self.stream.write(buf)
    }

    fn flush(&mut self) -> io::Result<()> {
        self.stream.flush()
    }
}
