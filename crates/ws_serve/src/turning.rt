//! One turn of a connection.
ghost use Rattle.std.specs.Prelude.{◌≡◌, [], IfErr};
ghost use mathlib.Core.List.{IsPrefix};
ghost use Rattle.ws_serve.specs.After.{AfterTurned, AfterTurn, AfterStep, Refills};
ghost use Rattle.ws_serve.specs.Counts.{AreFew};
ghost use Rattle.ws_serve.specs.Served.{Serving};
ghost use Rattle.ws_socket.specs.Faults.{IsOfStream};

use crate::counts::{Counts, MOST_READS};
use crate::hearing::{Went, go_on};
use crate::sending::catch_up;
use crate::socket::Socket;
use crate::turns::Turns;
use event_log::Keeper;
use event_store::{Desk, Naming, Reader};
use relay_core::Conn;
use std::alloc::Global;
use std::io::{Read, Write};
use std::sync::{Mutex, Wait};
use ws_socket::LinkFault;

/// Once so many messages were read, a turn ends.
const MANY_READS: u64 = 256;

/// How often a turn reads at most: messages, or more of the stream.
const MOST_STEPS: u32 = 1_024;

/// Where more of the stream was read so often, and no message came, that is of a long one.
const LONG_READS: u32 = 16;

/// What a turn has come to.
#[derive(Clone, Copy, PartialEq, Eq)]
pub enum Turned {
    /// The stream has nothing more to read.
    Idle,
    /// There may be more to read at once.
    Ready,
    /// A long text comes, which this turn doesn't read: the next turn goes on with it.
    Later,
    /// The stream would block, and more waits to be sent than may: till some of it is sent, nothing is read.
    Full,
    /// The client has closed, or 1,000,000 messages were read: nothing is read any more.
    Over,
}

/// Sends what waits, and then reads and answers until the stream would block or the turn's steps are used. Then what was published
/// for the client was put behind the answers, and what waits was sent, as far as the stream takes it.
pub fn run<W: Wait, S: Read + Write, J: Naming, D: Wait + Drop, H: Keeper<J>>(
    rt: &W,
    alloc: Global,
    socket: &mut Socket<S>,
    conn: &mut Conn,
    reader: &mut Reader<J>,
    desk: &Mutex<Desk<J, D>>,
    keeper: &H,
    turns: &mut Turns<'_>,
    counts: &mut Counts,
) -> Result<Turned, LinkFault>
    requires few { AreFew counts.old }
    requires serving { Serving [] conn.old socket.old reader.old }
    ensures few { AreFew counts.new }
    ensures fault { IfErr result IsOfStream }
    ensures limits { conn.new.limits ≡ conn.old.limits }
    ensures served { AfterTurn result conn.new socket.new reader.new }
    ensures reader { IsPrefix reader.old reader.new }
{
    socket.send()?;
    let turned = go(rt, alloc, socket, conn, reader, desk, keeper, turns, counts)?;
    settle(alloc, socket, conn, reader, turned)
}

/// Reads and answers until the stream would block or the turn's steps are used.
fn go<W: Wait, S: Read + Write, J: Naming, D: Wait + Drop, H: Keeper<J>>(
    rt: &W,
    alloc: Global,
    socket: &mut Socket<S>,
    conn: &mut Conn,
    reader: &mut Reader<J>,
    desk: &Mutex<Desk<J, D>>,
    keeper: &H,
    turns: &mut Turns<'_>,
    counts: &mut Counts,
) -> Result<Turned, LinkFault>
    requires few { AreFew counts.old }
    requires serving { Serving [] conn.old socket.old reader.old }
    ensures few { AreFew counts.new }
    ensures fault { IfErr result IsOfStream }
    ensures limits { conn.new.limits ≡ conn.old.limits }
    ensures served { AfterTurn result conn.new socket.new reader.new }
    ensures reader { IsPrefix reader.old reader.new }
{
    let begun = counts.reads;
    let mut more = 0_u32;
    for _step in 0..MOST_STEPS {
        if counts.reads.saturating_sub(begun) >= MANY_READS {
            return Ok(Turned::Ready);
        }
        if more >= LONG_READS && !turns.reads_long {
            return Ok(Turned::Later);
        }
        let before = counts.reads;
        let stepped = step(rt, alloc, socket, conn, reader, desk, keeper, turns, counts)?;
        if let Some(end) = stepped {
            return Ok(end);
        }
        more = if counts.reads == before {
            more.saturating_add(1)
        } else {
            0
        };
    }
    Ok(Turned::Ready)
}

/// Reads a message and answers it, or reads more of the stream. It tells what the turn has come to, if that ends it.
fn step<W: Wait, S: Read + Write, J: Naming, D: Wait + Drop, H: Keeper<J>>(
    rt: &W,
    alloc: Global,
    socket: &mut Socket<S>,
    conn: &mut Conn,
    reader: &mut Reader<J>,
    desk: &Mutex<Desk<J, D>>,
    keeper: &H,
    turns: &mut Turns<'_>,
    counts: &mut Counts,
) -> Result<Option<Turned>, LinkFault>
    requires few { AreFew counts.old }
    requires serving { Serving [] conn.old socket.old reader.old }
    ensures few { AreFew counts.new }
    ensures fault { IfErr result IsOfStream }
    ensures limits { conn.new.limits ≡ conn.old.limits }
    ensures served { AfterStep result conn.new socket.new reader.new }
    ensures reader { IsPrefix reader.old reader.new }
{
    if socket.is_full() {
        return Ok(Some(Turned::Full));
    }
    if counts.reads >= MOST_READS {
        socket.put_close()?;
        return Ok(Some(Turned::Over));
    }
    match go_on(rt, alloc, socket, conn, reader, desk, keeper, turns, counts)? {
        Went::More => Ok(None),
        Went::Nothing => refill(socket),
        Went::Later => Ok(Some(Turned::Later)),
        Went::Closed => Ok(Some(Turned::Over)),
    }
}

/// Sends what waits, and reads more of the stream.
fn refill<S: Read + Write>(socket: &mut Socket<S>) -> Result<Option<Turned>, LinkFault>
    ensures fault { IfErr result IsOfStream }
    ensures refills { Refills result socket.old socket.new }
{
    socket.send()?;
    if socket.is_full() {
        return Ok(Some(Turned::Full));
    }
    if socket.fill()? {
        return Ok(None);
    }
    Ok(Some(Turned::Idle))
}

/// Puts what was published for the client behind what waits, unless the connection is over, and sends it.
fn settle<S: Write, J: Naming>(
    alloc: Global,
    socket: &mut Socket<S>,
    conn: &mut Conn,
    reader: &mut Reader<J>,
    turned: Turned,
) -> Result<Turned, LinkFault>
    requires after { AfterTurned turned conn.old socket.old reader.old }
    ensures fault { IfErr result IsOfStream }
    ensures limits { conn.new.limits ≡ conn.old.limits }
    ensures served { AfterTurn result conn.new socket.new reader.new }
    ensures reader { IsPrefix reader.old reader.new }
{
    if turned == Turned::Over {
        socket.send()?;
        return Ok(turned);
    }
    catch_up(alloc, socket, conn, reader)?;
    socket.send()?;
    if socket.is_full() {
        return Ok(Turned::Full);
    }
    Ok(turned)
}

/// The same of a connection of which nothing is read, unless more waits than may.
pub fn tell<S: Write, J: Naming>(
    alloc: Global,
    socket: &mut Socket<S>,
    conn: &mut Conn,
    reader: &mut Reader<J>,
) -> Result<Turned, LinkFault>
    requires serving { Serving [] conn.old socket.old reader.old }
    ensures fault { IfErr result IsOfStream }
    ensures limits { conn.new.limits ≡ conn.old.limits }
    ensures served { AfterTurn result conn.new socket.new reader.new }
    ensures reader { IsPrefix reader.old reader.new }
{
    socket.send()?;
    if socket.is_full() {
        return Ok(Turned::Full);
    }
    settle(alloc, socket, conn, reader, Turned::Idle)
}
