//! A connection that came in.

use mio::net::TcpStream;
use mirror_settings::Settings;
use std::io;
use std::io::{ErrorKind, Read, Write};
use std::net::Shutdown;
use std::sync::Arc;
use std::sync::atomic::{AtomicBool, AtomicUsize, Ordering};
use std::time::Duration;

/// After how many milliseconds a client that brings nothing is sent a ping, where the settings don't say: a minute.
const PING_MS: u64 = 60_000;

/// A ping without a payload, as a whole frame of a server (RFC 6455, sections 5.2 and 5.5.2).
const PING: [u8; 2] = [0x89, 0];

/// What is told to one that asks for a document (RFC 9110, section 15.5.22).
const TURNED_AWAY: &str =
    "HTTP/1.1 426 Upgrade Required\r\nConnection: Upgrade, close\r\nUpgrade: websocket\r\nContent-Type: text/plain; charset=utf-8\r\nContent-Length: 61\r\n\r\nThis is a Nostr relay: it speaks WebSocket (NIP-01, NIP-77).\n";

/// How long clients may keep a connection waiting.
#[derive(Clone, Copy)]
pub struct Patience {
    /// After how long a client that brings nothing is sent a ping, and after how long it ends then.
    pub ping: Duration,
    /// How long it may take nothing of what it is sent.
    pub write: Duration,
}

impl Patience {
    /// What the settings say.
    pub fn of(settings: &Settings) -> Patience {
        Patience {
            ping: Duration::from_millis(settings.ping_ms.unwrap_or(PING_MS)),
            write: settings.timeout(),
        }
    }
}

/// A connection that came in, and what was heard of it since that was last looked at.
#[derive(Drop)]
pub struct Client {
    stream: TcpStream,
    has_brought: AtomicBool,
    has_taken: AtomicBool,
    // How many bytes it has brought.
    brought: AtomicUsize,
    // Whether its handshake is answered.
    is_met: AtomicBool,
    // Whether it may have brought something that isn't read, and whether nothing more comes behind that.
    has_more: AtomicBool,
    is_ending: AtomicBool,
}

impl Client {
    /// A client whose handshake is still to come.
    pub fn new(stream: TcpStream) -> Client {
        Client {
            stream,
            has_brought: AtomicBool::new(false),
            has_taken: AtomicBool::new(false),
            brought: AtomicUsize::new(0),
            is_met: AtomicBool::new(false),
            has_more: AtomicBool::new(true),
            is_ending: AtomicBool::new(false),
        }
    }

    /// Something was heard of it, which may be that nothing more comes.
    pub fn hear(&self, is_ending: bool) {
        if is_ending {
            self.is_ending.store(true, Ordering::SeqCst);
        }
        self.has_more.store(true, Ordering::SeqCst);
    }

    // Whether there may be something to read.
    fn may_have_more(&self) -> bool {
        self.has_more.load(Ordering::SeqCst) || self.is_ending.load(Ordering::SeqCst)
    }

    /// Whether it has brought something since this was last asked.
    pub fn has_brought(&self) -> bool {
        self.has_brought.swap(false, Ordering::SeqCst)
    }

    /// How many bytes it has brought since this was last asked.
    pub fn brought(&self) -> usize {
        self.brought.swap(0, Ordering::SeqCst)
    }

    /// Whether it has taken something since this was last asked.
    pub fn has_taken(&self) -> bool {
        self.has_taken.swap(false, Ordering::SeqCst)
    }

    /// Whether its handshake is answered.
    pub fn is_met(&self) -> bool {
        self.is_met.load(Ordering::SeqCst)
    }

    /// Sends a ping. What was sent before is whole frames.
    pub fn ping(&self) {
        let mut stream = &self.stream;
        let _ = stream.write(&PING);
    }

    /// Tells one that asked for a document, and not for a WebSocket, what this is.
    pub fn turn_away(&self) {
        if !self.is_met() {
            let mut stream = &self.stream;
            let _ = stream.write(TURNED_AWAY.as_bytes());
        }
    }

    /// Ends the connection: nothing more comes, and nothing more is taken.
    pub fn end(&self) {
        let _ = self.stream.shutdown(Shutdown::Both);
    }
}

/// What a client says, and is told. Neither waits.
#[derive(Drop)]
pub struct Line {
    /// Whose it is.
    pub client: Arc<Client>,
}

impl Read for Line {
    // Where less was read than there was room for, the stream had nothing more, until more is heard of it.
    fn read(&mut self, buf: &mut [u8]) -> io::Result<usize> {
        if !self.client.may_have_more() {
            return Err(io::Error::from(ErrorKind::WouldBlock));
        }
        self.client.has_more.store(false, Ordering::SeqCst);
        let mut stream = &self.client.stream;
        let read = stream.read(buf);
        let has_more = match &read {
            Ok(count) => *count == buf.len(),
            Err(error) => error.kind() != ErrorKind::WouldBlock,
        };
        if has_more {
            self.client.has_more.store(true, Ordering::SeqCst);
        }
        let count = read?;
        self.client.has_brought.store(true, Ordering::SeqCst);
        self.client.brought.fetch_add(count, Ordering::SeqCst);
        Ok(count)
    }
}

impl Write for Line {
    // What is written first is the answer to the handshake.
    fn write(&mut self, buf: &[u8]) -> io::Result<usize> {
        let mut stream = &self.client.stream;
        let count = stream.write(buf)?;
        self.client.is_met.store(true, Ordering::SeqCst);
        self.client.has_taken.store(true, Ordering::SeqCst);
        Ok(count)
    }

    fn flush(&mut self) -> io::Result<()> {
        Ok(())
    }
}
