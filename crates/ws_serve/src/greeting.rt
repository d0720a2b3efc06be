//! The server's handshake, as a machine.
ghost use Rattle.std.specs.Prelude.{IfErr};
ghost use Rattle.ws_socket.specs.Faults.{IsOfStream};

use std::alloc::Global;
use std::io::{Read, Write};
use tungstenite::handshake::server::start;
use tungstenite::{HandshakeError, MidHandshake, NoCallback, ServerHandshake};
use ws_socket::LinkFault;

/// A handshake that isn't over (RFC 6455, section 4.2).
#[derive(Drop)]
pub struct Greeting<S: Read + Write + Drop> {
    next: MidHandshake<ServerHandshake<S, NoCallback>>,
}

/// How far a handshake has come.
#[derive(Drop)]
pub enum Greeted<S: Read + Write + Drop> {
    /// It is done. No byte behind it was read.
    Done(S),
    /// The stream would block.
    Waits(Greeting<S>),
}

impl<S: Read + Write + Drop> Greeting<S> {
    /// A handshake over a stream, of which nothing was read yet.
    pub fn new(alloc: Global, stream: S) -> Greeting<S> {
        Greeting {
            next: start(alloc, stream, NoCallback, None),
        }
    }

    /// Goes on with it until it is done or the stream would block.
    pub fn go_on(self) -> Result<Greeted<S>, LinkFault>
        ensures { IfErr result IsOfStream }
    {
        match self.next.handshake() {
            Ok(socket) => Ok(Greeted::Done(socket.into_inner())),
            Err(HandshakeError::Interrupted(next)) => Ok(Greeted::Waits(Greeting { next })),
            Err(HandshakeError::Failure(error)) => Err(error.into()),
        }
    }
}
