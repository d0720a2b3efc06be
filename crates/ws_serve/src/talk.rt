//! A connection that is served, as a machine.
ghost use Rattle.std.specs.Prelude.{◌≡◌, ◌≤◌, Some, IfOk, IfErr, IfSome};
ghost use mathlib.Core.List.{IsPrefix};
ghost use Rattle.ws_serve.specs.After.{is_over};
ghost use Rattle.ws_serve.specs.Steps.{IsFresh};
ghost use Rattle.ws_serve.specs.Talking.{WasServed};
ghost use Rattle.ws_socket.specs.Faults.{IsOfStream};

use crate::counts::Counts;
use crate::socket::Socket;
use crate::turning::{Turned, run, tell};
use crate::turns::Turns;
use event_log::Keeper;
use event_store::{Desk, Front, Naming, Reader};
use relay_core::{Conn, RelayLimits};
use std::alloc::Global;
use std::io::{Read, Write};
use std::marker::Model;
use std::sync::{Mutex, Wait};
use ws_socket::LinkFault;

/// A connection behind its handshake, which is served turn by turn (NIP-01, NIP-77). It never waits by itself: a turn waits where
/// its stream does, for the desk and for the keeper. What the stream doesn't take waits, in order, and each byte is sent once.
pub struct Talk<S, J: Naming> {
    socket: Socket<S>,
    conn: Conn,
    counts: Counts,
    // Whether nothing more is read, or put.
    is_over: bool,
    // What the reader of its last turn had seen, which that of the next one takes in first.
    seen: Option<Front<J>>,
}

// By hand, as a derived one is proved anew wherever a value is dropped.
impl<S: Drop, J: Naming> Drop for Talk<S, J> {
    fn drop(self) {
        let Self {
            socket: _,
            conn: _,
            counts: _,
            is_over: _,
            seen: _,
        } = self;
    }
}

impl<S, J: Naming> Model for Talk<S, J> {
    ghost use Rattle.ws_serve.specs.Talking.{Talking};
    ghost use Rattle.ws_serve.specs.Counts.{AreFew};
    ghost use Rattle.ws_serve.specs.Served.{Stands};

    ghost Value = { Talking };

    ghost view = { λ t. record {
      traffic = t.socket;
      conn = t.conn;
      texts = t.counts.texts;
      seen = t.seen;
      over = t.is_over;
    } };

    ghost invariant = { λ t. record { few : AreFew t.counts; stands : Stands t.is_over t.conn t.socket t.seen } };
}

impl<S: Drop, J: Naming> Talk<S, J> {
    /// A connection whose handshake was done over the stream. While the stream would block and more than `most_waiting` bytes wait to
    /// be sent, nothing is read, and nothing that is published is put behind them.
    pub fn new(
        alloc: Global,
        stream: S,
        limits: RelayLimits,
        most_waiting: usize,
    ) -> Result<Talk<S, J>, LinkFault>
        ensures fault { IfErr result IsOfStream }
        ensures limits { IfOk result (λ t. t.conn.limits ≡ limits) }
        ensures fresh { IfOk result (λ t. IsFresh t.traffic) }
    {
        let socket = Socket::new(alloc, stream, most_waiting)?;
        Ok(Talk {
            socket,
            conn: Conn::new(alloc, limits),
            counts: Counts { reads: 0, texts: 0 },
            is_over: false,
            seen: None,
        })
    }
}

impl<S, J: Naming> Talk<S, J> {
    /// How many texts were answered.
    pub fn texts(&self) -> u64
        ensures value { result ≡ self.now.texts }
        ensures most { result ≤ 1000000 }
    {
        self.counts.texts
    }

    /// What went out answers what came in: the frames of the bytes that the stream gave, each message once and in their order, and what
    /// was published between them. What the stream took is the beginning of that.
    pub fn always_served(&self)
        ensures { WasServed self.now }
    {
        self.socket.always_takes();
    }

    /// Whether something may be published for the client.
    pub fn has_subs(&self) -> bool {
        self.conn.has_subs()
    }

    /// Whether bytes wait for the stream.
    pub fn has_waiting(&self) -> bool {
        self.socket.has_waiting()
    }
}

impl<S: Write, J: Naming> Talk<S, J> {
    /// Sends what waits, unless the last turn has found that the stream would block.
    pub fn send(&mut self) -> Result<(), LinkFault>
        ensures fault { IfErr result IsOfStream }
        ensures limits { self.new.conn.limits ≡ self.old.conn.limits }
    {
        self.socket.send()
    }
}

impl<S: Read + Write, J: Naming> Talk<S, J> {
    /// Sends what waits, as far as the stream takes it; reads and answers until the stream would block (`WouldBlock`, `TimedOut`) or
    /// 256 messages were read; then puts what was published for the client behind the answers, and sends that. Events
    /// that came together, at most 64 with no other message between them, are put into the store together, and their answers and all
    /// that come behind wait until they are kept. Where connections share a lock, one long text is read at a time of them all. Once
    /// the connection is over, or a turn has failed, a turn sends what waits and does nothing else. Each turn may have another reader,
    /// which first takes in what those of the turns before had seen.
    pub fn turn<W: Wait, D: Wait + Drop, H: Keeper<J>>(
        &mut self,
        rt: &W,
        alloc: Global,
        reader: &mut Reader<J>,
        desk: &Mutex<Desk<J, D>>,
        keeper: &H,
        turns: &mut Turns<'_>,
    ) -> Result<Turned, LinkFault>
        ensures fault { IfErr result IsOfStream }
        ensures limits { self.new.conn.limits ≡ self.old.conn.limits }
        ensures reader { IsPrefix reader.old reader.new }
        ensures seen { IfSome self.old.seen (λ seen. IsPrefix seen reader.new) }
        ensures carried { self.new.seen ≡ Some reader.new }
    {
        self.recall(reader);
        self.turn_by(rt, alloc, reader, desk, keeper, turns)
    }

    // The same with a reader that knows all that the connection has seen.
    fn turn_by<W: Wait, D: Wait + Drop, H: Keeper<J>>(
        &mut self,
        rt: &W,
        alloc: Global,
        reader: &mut Reader<J>,
        desk: &Mutex<Desk<J, D>>,
        keeper: &H,
        turns: &mut Turns<'_>,
    ) -> Result<Turned, LinkFault>
        requires known { self.old.seen ≡ Some reader.old }
        ensures fault { IfErr result IsOfStream }
        ensures limits { self.new.conn.limits ≡ self.old.conn.limits }
        ensures reader { IsPrefix reader.old reader.new }
        ensures carried { self.new.seen ≡ Some reader.new }
    {
        self.socket.retry();
        if self.is_over {
            self.socket.send()?;
            return Ok(Turned::Over);
        }
        let turned = run(
            rt,
            alloc,
            &mut self.socket,
            &mut self.conn,
            reader,
            desk,
            keeper,
            turns,
            &mut self.counts,
        );
        self.is_over = ends(&turned);
        self.seen = Some(reader.front());
        self.socket.rest();
        turned
    }
}

impl<S: Write, J: Naming> Talk<S, J> {
    /// Puts what was published for the client behind what waits, and sends that, as far as the stream takes it. Nothing is read.
    pub fn tell(&mut self, alloc: Global, reader: &mut Reader<J>) -> Result<Turned, LinkFault>
        ensures fault { IfErr result IsOfStream }
        ensures limits { self.new.conn.limits ≡ self.old.conn.limits }
        ensures reader { IsPrefix reader.old reader.new }
        ensures seen { IfSome self.old.seen (λ seen. IsPrefix seen reader.new) }
        ensures carried { self.new.seen ≡ Some reader.new }
    {
        self.recall(reader);
        self.tell_by(alloc, reader)
    }

    // The same with a reader that knows all that the connection has seen.
    fn tell_by(&mut self, alloc: Global, reader: &mut Reader<J>) -> Result<Turned, LinkFault>
        requires known { self.old.seen ≡ Some reader.old }
        ensures fault { IfErr result IsOfStream }
        ensures limits { self.new.conn.limits ≡ self.old.conn.limits }
        ensures reader { IsPrefix reader.old reader.new }
        ensures carried { self.new.seen ≡ Some reader.new }
    {
        self.socket.retry();
        if self.is_over {
            self.socket.send()?;
            return Ok(Turned::Over);
        }
        let told = tell(alloc, &mut self.socket, &mut self.conn, reader);
        self.is_over = ends(&told);
        self.seen = Some(reader.front());
        told
    }
}

impl<S, J: Naming> Talk<S, J> {
    // The reader takes in what the connection has seen.
    fn recall(&mut self, reader: &mut Reader<J>)
        ensures seen { IfSome self.old.seen (λ seen. IsPrefix seen reader.new) }
        ensures reader { IsPrefix reader.old reader.new }
        ensures known { self.new ≡ record self.old { seen = Some reader.new } }
    {
        take_in(&self.seen, reader);
        self.seen = Some(reader.front());
    }
}

/// The reader takes in what was seen.
fn take_in<J: Naming>(seen: &Option<Front<J>>, reader: &mut Reader<J>)
    ensures seen { IfSome seen.now (λ seen. IsPrefix seen reader.new) }
    ensures reader { IsPrefix reader.old reader.new }
{
    if let Some(seen) = seen {
        reader.recall(seen);
    }
}

/// Whether nothing more is read behind such a turn.
fn ends(turned: &Result<Turned, LinkFault>) -> bool
    ensures { result ≡ is_over turned.now }
{
    match turned {
        Ok(turned) => *turned == Turned::Over,
        Err(_) => true,
    }
}
