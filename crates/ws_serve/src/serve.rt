//! The relay's side of a link.
ghost use Rattle.std.specs.Prelude.{◌≤◌, IfOk, IfErr};
ghost use mathlib.Core.List.{IsPrefix};
ghost use Rattle.ws_socket.specs.Faults.{IsOfStream};

use crate::greeting::{Greeted, Greeting};
use crate::talk::Talk;
use crate::turning::Turned;
use crate::turns::Turns;
use event_log::{Keeper, Unfiled};
use event_store::{Desk, Naming, Reader};
use event_text::EventScratch;
use relay_core::RelayLimits;
use std::alloc::Global;
use std::io::{Read, Write};
use std::sync::{Mutex, Wait};
use ws_socket::LinkFault;

/// How often a handshake goes on where the stream would block.
const MOST_ROUNDS: u32 = 100;

/// Does the server's handshake, and serves the client (NIP-01, NIP-77) until it closes, or until 1,000,000 reads have
/// brought something: then it closes the connection itself. It gives the number of texts served. After each message, or the last of
/// events that came together, and where a read answers `WouldBlock` or `TimedOut`, it sends the client what was published for it.
/// Events that came together, at most 64 with no other message between them, are put into the store together, and short answers
/// to messages that came together are sent together, before more is read. The desk is locked for one such insert at a time. A write
/// that answers `WouldBlock` or `TimedOut` ends the connection.
pub fn serve_conn<W: Wait, S: Read + Write + Drop, J: Naming, D: Wait + Drop>(
    rt: &W,
    alloc: Global,
    stream: S,
    reader: &mut Reader<J>,
    desk: &Mutex<Desk<J, D>>,
    limits: RelayLimits,
) -> Result<u64, LinkFault>
    ensures served { IfOk result (λ n. n ≤ 1000000) }
    ensures fault { IfErr result IsOfStream }
    ensures reader { IsPrefix reader.old reader.new }
{
    let turn = Mutex::new(());
    serve_kept(rt, alloc, stream, reader, desk, &Unfiled, &turn, limits)
}

/// As `serve_conn`, for a store whose events are acknowledged once they are kept. The answers to events that came together, and
/// all that come behind them, wait until these are. Where connections share `turn`, one long text is read at a time of them all.
pub fn serve_kept<W: Wait, S: Read + Write + Drop, J: Naming, D: Wait + Drop, H: Keeper<J>>(
    rt: &W,
    alloc: Global,
    stream: S,
    reader: &mut Reader<J>,
    desk: &Mutex<Desk<J, D>>,
    keeper: &H,
    turn: &Mutex<()>,
    limits: RelayLimits,
) -> Result<u64, LinkFault>
    ensures served { IfOk result (λ n. n ≤ 1000000) }
    ensures fault { IfErr result IsOfStream }
    ensures reader { IsPrefix reader.old reader.new }
{
    // No more than what the stream takes at once may wait.
    let mut talk = Talk::new(alloc, accept(alloc, stream)?, limits, 0)?;
    let mut turns = Turns {
        lock: turn,
        reads_long: true,
        scratch: &mut EventScratch::new(),
    };
    serve_all(rt, alloc, &mut talk, reader, desk, keeper, &mut turns)
}

/// Serves turn by turn until the connection is over, and sends what was answered. It gives the number of texts served.
fn serve_all<W: Wait, S: Read + Write, J: Naming, D: Wait + Drop, H: Keeper<J>>(
    rt: &W,
    alloc: Global,
    talk: &mut Talk<S, J>,
    reader: &mut Reader<J>,
    desk: &Mutex<Desk<J, D>>,
    keeper: &H,
    turns: &mut Turns<'_>,
) -> Result<u64, LinkFault>
    ensures served { IfOk result (λ n. n ≤ 1000000) }
    ensures fault { IfErr result IsOfStream }
    ensures reader { IsPrefix reader.old reader.new }
{
    let served = serve(rt, alloc, talk, reader, desk, keeper, turns);
    // What was answered goes out, also where a fault ended the connection.
    let sent = talk.send();
    served?;
    sent?;
    if talk.has_waiting() {
        return Err(LinkFault::Link);
    }
    Ok(talk.texts())
}

/// Serves turn by turn, until the connection is over or a write would block.
fn serve<W: Wait, S: Read + Write, J: Naming, D: Wait + Drop, H: Keeper<J>>(
    rt: &W,
    alloc: Global,
    talk: &mut Talk<S, J>,
    reader: &mut Reader<J>,
    desk: &Mutex<Desk<J, D>>,
    keeper: &H,
    turns: &mut Turns<'_>,
) -> Result<(), LinkFault>
    ensures fault { IfErr result IsOfStream }
    ensures reader { IsPrefix reader.old reader.new }
{
    for _turn in 0..u64::MAX {
        match talk.turn(rt, alloc, reader, desk, keeper, turns)? {
            Turned::Over => return Ok(()),
            Turned::Full => return Err(LinkFault::Link),
            Turned::Ready => {}
            Turned::Idle => {}
            Turned::Later => {}
        }
    }
    Ok(())
}

/// Does the server's handshake, and gives the stream back, of which no byte was read behind it.
fn accept<S: Read + Write + Drop>(alloc: Global, stream: S) -> Result<S, LinkFault>
    ensures { IfErr result IsOfStream }
{
    let mut greeting = Greeting::new(alloc, stream);
    for _round in 0..MOST_ROUNDS {
        match greeting.go_on()? {
            Greeted::Done(stream) => return Ok(stream),
            Greeted::Waits(rest) => greeting = rest,
        }
    }
    Err(LinkFault::Link)
}
