//! What faults of a connection make of its link.
ghost use Rattle.std.specs.Prelude.{◌≡◌, Ok, Err, IfErr, MatchResult};
ghost use Rattle.ws_serve.specs.Faults.{link_of};
ghost use Rattle.ws_socket.specs.Faults.{IsOfStream};

use relay_core::ConnFault;
use std::io;
use std::io::ErrorKind;
use tungstenite::Error as SocketError;
use wire::Fault;
use ws_socket::LinkFault;

/// What a call on a connection comes to on its link. A relay whose store is gone ends the link.
pub fn on_link<T>(called: Result<T, ConnFault>) -> Result<T, LinkFault>
    ensures value { MatchResult called (λ v. result ≡ Ok v) (λ f. result ≡ Err (link_of f)) }
    ensures fault { IfErr result IsOfStream }
{
    match called {
        Ok(value) => Ok(value),
        Err(ConnFault::Gone | ConnFault::Closed) => Err(LinkFault::Link),
        Err(ConnFault::Memory) => Err(LinkFault::Memory),
    }
}

/// What a wire's fault comes to.
pub fn broken(fault: Fault) -> LinkFault
    ensures { IsOfStream result }
{
    match fault {
        Fault::Stream(error) => LinkFault::from(SocketError::Io(error)),
        Fault::Frame(error) => LinkFault::from(SocketError::from(error)),
    }
}

/// Whether the stream would block, and has not failed.
pub fn would_block(error: &io::Error) -> bool {
    matches!(error.kind(), ErrorKind::WouldBlock | ErrorKind::TimedOut)
}
