//! Why a link failed, in words.

use nostr_event::Text;
use std::fmt;
use std::io::{Error as StreamError, ErrorKind};
use tungstenite::Error as SocketError;
use websocket::error::ProtocolError;
use websocket::handshake::HandshakeError;

/// How many characters of a relay's text are told.
const MOST_TOLD: usize = 200;

/// The kind of the error by which a stream says that what it reads comes too slowly. No socket gives it.
pub const TOO_SLOW: ErrorKind = ErrorKind::QuotaExceeded;

/// Why a link failed, in words.
#[derive(Drop)]
pub enum Reason {
    /// The host's name makes no address.
    NoHost,
    /// The host takes no connection at that port.
    NotTaken,
    /// There is no way to the host.
    NoWay,
    /// The other side said nothing for too long.
    TimedOut,
    /// The other side closed the connection.
    Closed,
    /// The other side answered the handshake with this status of HTTP.
    Status(u16),
    /// The other side answered the handshake with what is none.
    NoHandshake,
    /// The other side sent what is no message.
    NoMessage,
    /// The other side sent a message of more bytes than are taken.
    TooLong,
    /// What was asked for came too slowly.
    TooSlow,
    /// A thousand messages came that have nothing to do with the call.
    TooManyOthers,
    /// `NEG-ERR` of NIP-77.
    NegErr(Text),
    /// `CLOSED` of NIP-01.
    ClosedSub(Text),
    /// No memory was found.
    Memory,
}

impl Reason {
    /// Why a stream failed.
    pub fn of_stream(error: &StreamError) -> Reason {
        let kind = error.kind();
        if kind == TOO_SLOW {
            return Reason::TooSlow;
        }
        match kind {
            ErrorKind::ConnectionRefused => Reason::NotTaken,
            ErrorKind::TimedOut | ErrorKind::WouldBlock => Reason::TimedOut,
            ErrorKind::HostUnreachable
            | ErrorKind::NetworkUnreachable
            | ErrorKind::NetworkDown
            | ErrorKind::AddrNotAvailable => Reason::NoWay,
            ErrorKind::OutOfMemory => Reason::Memory,
            _ => Reason::Closed,
        }
    }

    /// Why a socket failed.
    pub fn of_socket(error: &SocketError) -> Reason {
        match error {
            SocketError::OutOfMemory | SocketError::Handshake(HandshakeError::OutOfMemory) => {
                Reason::Memory
            }
            SocketError::Io(error) => Reason::of_stream(error),
            SocketError::ConnectionClosed
            | SocketError::AlreadyClosed
            | SocketError::HandshakeIncomplete
            | SocketError::WriteBufferFull
            | SocketError::Protocol(ProtocolError::ResetWithoutClosingHandshake) => Reason::Closed,
            SocketError::Http(response) => Reason::Status(response.status().as_u16()),
            SocketError::Url => Reason::NoHost,
            SocketError::Handshake(_) | SocketError::AttackAttempt => Reason::NoHandshake,
            SocketError::Capacity(_) => Reason::TooLong,
            _ => Reason::NoMessage,
        }
    }
}

impl fmt::Display for Reason {
    fn fmt<W: fmt::Write>(&self, f: &mut fmt::Formatter<W>) -> fmt::Result {
        let text = match self {
            Reason::NoHost => "no such host",
            Reason::NotTaken => "connection refused",
            Reason::NoWay => "host unreachable",
            Reason::TimedOut => "timed out",
            Reason::Closed => "closed",
            Reason::Status(status) => return write!(f, "status {status}"),
            Reason::NoHandshake => "no WebSocket handshake",
            Reason::NoMessage => "no valid message",
            Reason::TooLong => "message too long",
            Reason::TooSlow => "too slow",
            Reason::TooManyOthers => "too many other messages",
            Reason::NegErr(text) => return write!(f, "NEG-ERR {}", Told(text.as_str())),
            Reason::ClosedSub(text) => return write!(f, "CLOSED {}", Told(text.as_str())),
            Reason::Memory => "out of memory",
        };
        f.write_str(text)
    }
}

/// The beginning of a text of the other side, in one line: each character that would move a terminal's cursor is told as a
/// space.
#[derive(Drop)]
pub struct Told<'a>(pub &'a str);

impl fmt::Display for Told<'_> {
    fn fmt<W: fmt::Write>(&self, f: &mut fmt::Formatter<W>) -> fmt::Result {
        for told in self.0.chars().take(MOST_TOLD) {
            let shown = if told.is_control() { ' ' } else { told };
            write!(f, "{shown}")?;
        }
        Ok(())
    }
}
