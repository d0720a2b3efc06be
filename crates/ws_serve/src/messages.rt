//! Messages, read one by one.
ghost use Rattle.std.specs.Prelude.{IfOk, IfErr, OnErr};
ghost use Rattle.ws_serve.specs.Steps.{Hears, HearsNext, Holds};
ghost use Rattle.ws_socket.specs.Faults.{IsOfStream};

use crate::socket::Socket;
use crate::turns::Turns;
use std::io::Write;
use wire::Heard;
use ws_socket::LinkFault;

/// What comes next.
#[derive(Drop)]
pub enum Next {
    /// The text of an event.
    Event(String),
    /// Another message, or nothing.
    Other(Heard),
    /// A long text, which this turn doesn't read: it comes again.
    Later,
}

/// Reads a message of what has come. Its reply, if it asks for one, is put in place of these bytes.
pub fn next_message<S: Write>(
    socket: &mut Socket<S>,
    reply: &mut Vec<u8>,
    turns: &Turns<'_>,
) -> Result<Next, LinkFault>
    ensures fault { IfErr result IsOfStream }
    ensures hears { IfOk result (HearsNext socket.old socket.new reply.new.items) }
    ensures failed { OnErr result (Holds socket.old socket.new) }
{
    match hear_message(socket, reply)? {
        Heard::Text(text) => {
            if !turns.admits(text.as_str()) {
                socket.put_back(text);
                Ok(Next::Later)
            } else if is_event(text.as_str()) {
                Ok(Next::Event(text))
            } else {
                Ok(Next::Other(Heard::Text(text)))
            }
        }
        heard => Ok(Next::Other(heard)),
    }
}

/// Reads frames up to one that is no part of a message, or is the last one.
fn hear_message<S: Write>(socket: &mut Socket<S>, reply: &mut Vec<u8>) -> Result<Heard, LinkFault>
    ensures fault { IfErr result IsOfStream }
    ensures hears { IfOk result (Hears socket.old socket.new reply.new.items) }
    ensures failed { OnErr result (Holds socket.old socket.new) }
{
    for _frame in 0..u64::MAX {
        match socket.hear(reply)? {
            Heard::Part => {}
            heard => return Ok(heard),
        }
    }
    Ok(Heard::Nothing)
}

/// Whether the text begins as those of events do. One that begins in another way waits for no other.
fn is_event(text: &str) -> bool {
    text.as_bytes().starts_with(b"[\"EVENT\",")
}
