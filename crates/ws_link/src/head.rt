//! Streams whose reads end where a head may end.

ghost use Rattle.std.specs.Prelude.{◌≤◌, length};

use std::alloc::Global;
use std::io;
use std::io::{Read, Write};

/// A stream of which no read gives bytes from behind an empty line. So a handshake, which ends with the head, leaves what the
/// stream gave behind it in `rest`.
#[derive(Drop)]
pub struct HeadStream<S> {
    pub stream: S,
    /// What was read, and is still to be given.
    pub rest: Vec<u8>,
    // Whether the line that was begun is empty so far.
    is_blank: bool,
}

impl<S> HeadStream<S> {
    /// Of this stream nothing was read.
    pub fn new(alloc: Global, stream: S) -> HeadStream<S> {
        HeadStream {
            stream,
            rest: Vec::new(alloc),
            is_blank: false,
        }
    }
}

/// Where the first empty line ends in the bytes, or where these end. They go on where others ended.
fn head_end(is_blank: &mut bool, bytes: &[u8]) -> usize
    ensures { result ≤ length bytes.now }
{
    for at in 0..bytes.len() {
        match bytes[at] {
            b'\n' => {
                if *is_blank {
                    return at + 1;
                }
                *is_blank = true;
            }
            b'\r' => {}
            _ => *is_blank = false,
        }
    }
    bytes.len()
}

impl<S: Read> Read for HeadStream<S> {
    fn read(&mut self, buf: &mut [u8]) -> io::Result<usize> {
        if self.rest.is_empty() {
            let count = self.stream.read(buf)?;
            let end = head_end(&mut self.is_blank, &buf[..count]);
            self.rest.extend_from_slice(&buf[end..count])?;
            return Ok(end);
        }
        let most = self.rest.len().min(buf.len());
        let end = head_end(&mut self.is_blank, &self.rest[..most]);
        buf[..end].copy_from_slice(&self.rest[..end]);
        self.rest.drain(..end);
        Ok(end)
    }
}

impl<S: Write> Write for HeadStream<S> {
    fn write(&mut self, buf: &[u8]) -> io::Result<usize> {
        self.stream.write(buf)
    }

    fn flush(&mut self) -> io::Result<()> {
        self.stream.flush()
    }
}
