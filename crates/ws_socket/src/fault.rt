//! Why a link failed.
ghost use Rattle.std.specs.Prelude.{◌≡◌};
ghost use Rattle.ws_socket.specs.declared.fault.LinkFault.TheVariants.{Memory};
ghost use Rattle.ws_socket.specs.Faults.{number_of, ComesTo, IsOfStream};

use nostr_event::Text;
use std::alloc::{AllocError, AllocFailed};
use std::io::ErrorKind;
use thiserror::Error;
use tungstenite::Error as SocketError;
use websocket::error::ProtocolError;
use websocket::handshake::HandshakeError;

/// Why a link failed.
#[derive(Debug, Drop, Error)]
pub enum LinkFault {
    /// The stream failed, or ended or was closed too early. A relay whose store is gone ends so, too.
    #[error("the link failed")]
    Link,
    /// The other side refused, with this text (`CLOSED` of NIP-01, `NEG-ERR` of NIP-77).
    #[error("the other side refused")]
    Refused(Text),
    /// The other side broke RFC 6455, or sent what is no text of a relay.
    #[error("the other side broke the protocol")]
    Wire,
    /// A thousand messages came that have nothing to do with the call.
    #[error("too many other messages")]
    TooManyOthers,
    /// No memory was found.
    #[error("out of memory")]
    Memory,
}

impl LinkFault {
    /// The fault's number, 1 to 5.
    pub fn number(&self) -> u8
        ensures { result ≡ number_of self.now }
    {
        match self {
            LinkFault::Link => 1,
            LinkFault::Refused(_) => 2,
            LinkFault::Wire => 3,
            LinkFault::TooManyOthers => 4,
            LinkFault::Memory => 5,
        }
    }
}

impl From<AllocError> for LinkFault {
    ghost from_gives = { λ _ f. f ≡ Memory };

    fn from(_error: AllocError) -> LinkFault {
        LinkFault::Memory
    }
}

impl<T: Drop> From<AllocFailed<T>> for LinkFault {
    ghost from_gives = { λ _ f. f ≡ Memory };

    fn from(_error: AllocFailed<T>) -> LinkFault {
        LinkFault::Memory
    }
}

/// What a socket's error comes to.
fn fault_of(error: &SocketError) -> LinkFault
    ensures comes { ComesTo error.now result }
    ensures stream { IsOfStream result }
{
    match error {
        SocketError::OutOfMemory | SocketError::Handshake(HandshakeError::OutOfMemory) => {
            LinkFault::Memory
        }
        SocketError::Io(error) => {
            if error.kind() == ErrorKind::OutOfMemory {
                LinkFault::Memory
            } else {
                LinkFault::Link
            }
        }
        // The stream ended, or was closed, or the host's name makes no address.
        SocketError::ConnectionClosed
        | SocketError::AlreadyClosed
        | SocketError::HandshakeIncomplete
        | SocketError::Protocol(ProtocolError::ResetWithoutClosingHandshake)
        | SocketError::WriteBufferFull
        | SocketError::Url => LinkFault::Link,
        SocketError::Handshake(_)
        | SocketError::Protocol(_)
        | SocketError::Capacity(_)
        | SocketError::Utf8
        | SocketError::AttackAttempt
        | SocketError::JunkAfterRequest
        | SocketError::CustomResponseSuccessful
        | SocketError::Http(_)
        | SocketError::Refused(_) => LinkFault::Wire,
    }
}

impl From<SocketError> for LinkFault {
    ghost from_gives = { λ e f. ComesTo e f × IsOfStream f };

    fn from(error: SocketError) -> LinkFault {
        fault_of(&error)
    }
}
