//! What a client says, and what it is answered.
ghost use Rattle.std.specs.Prelude.{◌≡◌, ◌<◌, [], ◌∷◌, IfErr, OnOk, OnErr, MatchResult, codes};
ghost use mathlib.Core.List.{IsPrefix};
ghost use Rattle.relay_core.specs.Faults.{GoesOnBy};
ghost use Rattle.relay_core.specs.Messages.{notice};
ghost use Rattle.ws_serve.specs.Answering.{SaysAnswers};
ghost use Rattle.ws_serve.specs.Counts.{AreFew};
ghost use Rattle.ws_serve.specs.Frames.{spoken_one};
ghost use Rattle.ws_serve.specs.Pieces.{words};
ghost use Rattle.ws_serve.specs.Served.{Serving, Served};
ghost use Rattle.ws_serve.specs.Steps.{Awaits};
ghost use Rattle.ws_serve.specs.Traffic.{Says, MaySay};
ghost use Rattle.ws_socket.specs.Faults.{IsOfStream};

use crate::counts::Counts;
use crate::messages::{Next, next_message};
use crate::sending::{catch_up, say, say_all};
use crate::socket::Socket;
use crate::together::{answer_one, take_events};
use crate::turns::{Turns, serve_text};
use event_log::Keeper;
use event_store::{Desk, Naming, Reader};
use nostr_event::Text;
use nostr_wire::FromRelay;
use relay_core::{Conn, Step};
use std::alloc::Global;
use std::io::Write;
use std::sync::{Mutex, Wait};
use wire::Heard;
use ws_socket::LinkFault;

/// What was read.
#[derive(Clone, Copy, PartialEq, Eq)]
pub enum Went {
    /// A message.
    More,
    /// Nothing: no further message has come whole yet.
    Nothing,
    /// Nothing: a long text comes next, which this turn doesn't read.
    Later,
    /// The client has closed.
    Closed,
}

/// Reads a message of what has come, and puts what that brings about and what was published for the client behind what waits to be
/// sent. Behind an event it reads on, up to a message that is none, and answers all of them in their order.
pub fn go_on<W: Wait, S: Write, J: Naming, D: Wait + Drop, H: Keeper<J>>(
    rt: &W,
    alloc: Global,
    socket: &mut Socket<S>,
    conn: &mut Conn,
    reader: &mut Reader<J>,
    desk: &Mutex<Desk<J, D>>,
    keeper: &H,
    turns: &mut Turns<'_>,
    counts: &mut Counts,
) -> Result<Went, LinkFault>
    requires few { AreFew counts.old }
    requires room { counts.old.reads < 1000000 }
    requires serving { Serving [] conn.old socket.old reader.old }
    ensures few { AreFew counts.new }
    ensures fault { IfErr result IsOfStream }
    ensures limits { conn.new.limits ≡ conn.old.limits }
    ensures served { MatchResult result (λ _. Serving [] conn.new socket.new reader.new) (λ _. Served conn.new socket.new reader.new) }
    ensures reader { IsPrefix reader.old reader.new }
{
    let mut reply = Vec::new(alloc);
    let heard = match next_message(socket, &mut reply, turns)? {
        Next::Event(text) => {
            let behind = take_events(
                rt, alloc, socket, conn, reader, desk, keeper, turns, counts, &mut reply, text,
            )?;
            match behind {
                Some(heard) => heard,
                None => return Ok(Went::More),
            }
        }
        Next::Other(heard) => heard,
        Next::Later => return Ok(Went::Later),
    };
    heed(
        rt, alloc, socket, conn, reader, desk, keeper, turns, counts, &reply, heard,
    )
}

/// Answers what was read, and puts what was published for the client behind that.
fn heed<W: Wait, S: Write, J: Naming, D: Wait + Drop, H: Keeper<J>>(
    rt: &W,
    alloc: Global,
    socket: &mut Socket<S>,
    conn: &mut Conn,
    reader: &mut Reader<J>,
    desk: &Mutex<Desk<J, D>>,
    keeper: &H,
    turns: &mut Turns<'_>,
    counts: &mut Counts,
    reply: &Vec<u8>,
    heard: Heard,
) -> Result<Went, LinkFault>
    requires few { AreFew counts.old }
    requires room { counts.old.reads < 1000000 }
    requires awaits { Awaits heard reply.now.items conn.old socket.old reader.old }
    ensures few { AreFew counts.new }
    ensures fault { IfErr result IsOfStream }
    ensures limits { conn.new.limits ≡ conn.old.limits }
    ensures served { MatchResult result (λ _. Serving [] conn.new socket.new reader.new) (λ _. Served conn.new socket.new reader.new) }
    ensures reader { IsPrefix reader.old reader.new }
{
    let went = answer_message(
        rt, alloc, socket, conn, reader, desk, keeper, turns, counts, reply, heard,
    )?;
    if went != Went::More {
        return Ok(went);
    }
    catch_up(alloc, socket, conn, reader)?;
    Ok(went)
}

/// Answers what was read: a text by the answers to it, bytes by a notice, and a ping or a close by this reply.
fn answer_message<W: Wait, S: Write, J: Naming, D: Wait + Drop, H: Keeper<J>>(
    rt: &W,
    alloc: Global,
    socket: &mut Socket<S>,
    conn: &mut Conn,
    reader: &mut Reader<J>,
    desk: &Mutex<Desk<J, D>>,
    keeper: &H,
    turns: &mut Turns<'_>,
    counts: &mut Counts,
    reply: &Vec<u8>,
    heard: Heard,
) -> Result<Went, LinkFault>
    requires few { AreFew counts.old }
    requires room { counts.old.reads < 1000000 }
    requires awaits { Awaits heard reply.now.items conn.old socket.old reader.old }
    ensures few { AreFew counts.new }
    ensures fault { IfErr result IsOfStream }
    ensures limits { conn.new.limits ≡ conn.old.limits }
    ensures served { MatchResult result (λ _. Serving [] conn.new socket.new reader.new) (λ _. Served conn.new socket.new reader.new) }
    ensures reader { IsPrefix reader.old reader.new }
{
    match heard {
        Heard::Text(text) => {
            counts.reads += 1;
            counts.texts += 1;
            answer(
                rt,
                alloc,
                socket,
                conn,
                reader,
                desk,
                keeper,
                turns,
                text.as_str(),
            )?;
            Ok(Went::More)
        }
        Heard::Binary => {
            counts.reads += 1;
            refuse_bytes(alloc, socket)?;
            Ok(Went::More)
        }
        Heard::Other => {
            counts.reads += 1;
            socket.put_reply(reply.as_slice())?;
            Ok(Went::More)
        }
        Heard::Close => {
            socket.put_reply(reply.as_slice())?;
            Ok(Went::Closed)
        }
        Heard::Part => Ok(Went::Nothing),
        Heard::Nothing => Ok(Went::Nothing),
    }
}

/// Puts behind what waits to be sent that bytes are no message.
fn refuse_bytes<S: Write>(alloc: Global, socket: &mut Socket<S>) -> Result<(), LinkFault>
    ensures fault { IfErr result IsOfStream }
    ensures says { OnOk result (Says socket.old socket.new (spoken_one (notice (codes "invalid: bad message")))) }
    ensures failed { OnErr result (MaySay socket.old socket.new (spoken_one (notice (codes "invalid: bad message")))) }
{
    let text = Text::new(String::from_str(alloc, "invalid: bad message")?);
    say(socket, String::new(alloc), FromRelay::Notice { text })?;
    Ok(())
}

/// Puts the answers to a text behind what waits to be sent. Its event is put into the store, if it is one.
fn answer<W: Wait, S: Write, J: Naming, D: Wait + Drop, H: Keeper<J>>(
    rt: &W,
    alloc: Global,
    socket: &mut Socket<S>,
    conn: &mut Conn,
    reader: &mut Reader<J>,
    desk: &Mutex<Desk<J, D>>,
    keeper: &H,
    turns: &mut Turns<'_>,
    text: &str,
) -> Result<(), LinkFault>
    requires serving { Serving (words text.now ∷ []) conn.old socket.old reader.old }
    ensures fault { IfErr result IsOfStream }
    ensures answers { OnOk result (GoesOnBy (SaysAnswers conn.old.limits reader.old reader.new text.now socket.old socket.new) conn.old.kept conn.new.kept) }
    ensures failed { OnErr result (Served conn.new socket.new reader.new) }
    ensures limits { conn.new.limits ≡ conn.old.limits }
    ensures reader { IsPrefix reader.old reader.new }
{
    let Step { out, store } = serve_text(rt, conn, reader, turns, text)?;
    say_all(alloc, socket, out)?;
    match store {
        Some(event) => answer_one(rt, alloc, socket, conn, reader, desk, keeper, event),
        None => Ok(()),
    }
}
