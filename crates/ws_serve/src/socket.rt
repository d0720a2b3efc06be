//! A server's WebSocket whose texts leave together.
ghost use Rattle.std.specs.Prelude.{◌≡◌, [], ◌∷◌, string_bytes, IfOk, IfErr, OnOk, OnErr};
ghost use mathlib.Core.List.{IsPrefix};
ghost use Rattle.nostr_wire.specs.Forms.{relay_form};
ghost use Rattle.ws_serve.specs.Frames.{spoken_one};
ghost use Rattle.ws_serve.specs.Steps.{IsFresh, Gives, Holds, PutsClose, Hears};
ghost use Rattle.ws_serve.specs.Traffic.{Says, Rests, MaySay};
ghost use Rattle.ws_socket.specs.Faults.{IsOfStream};

use crate::fault::{broken, would_block};
use crate::outbox::Outbox;
use nostr_wire::FromRelay;
use std::alloc::{AllocError, Global};
use std::io;
use std::io::{Read, Write};
use std::marker::Model;
use wire::{Fault, Heard};
use ws_socket::{LinkFault, MANY_BYTES, limits};

/// How many bytes one read asks for, until the client has sent an event.
const FEW_BYTES: usize = 4_096;

/// Once so many bytes wait, they leave.
const MOST_GATHERED: usize = 131_072;

/// A message of so many bytes doesn't wait.
const MANY: usize = 32_768;

/// Whether the stream takes what waits.
#[derive(Clone, Copy, PartialEq, Eq)]
enum Outlet {
    /// As far as is known.
    Open,
    /// It would block.
    Full,
    /// A write has failed.
    Broken,
}

/// A server's WebSocket over a stream. What is put waits for `send`, until many bytes wait or until a long message comes: so the short
/// answers to messages that came together leave together. Where the stream would block, nothing more is sent until `retry`, and messages
/// are written only once it takes more; once a write has failed nothing is sent.
pub struct Socket<S> {
    outbox: Outbox<S>,
    outlet: Outlet,
    // While the stream would block and more bytes wait, nothing is read, and nothing published is put behind them.
    most_waiting: usize,
    // Whether a read asks for many bytes.
    reads_many: bool,
    // A text that was heard, and is to be heard again.
    kept: Option<String>,
}

// By hand, as a derived one is proved anew wherever a value is dropped.
impl<S: Drop> Drop for Socket<S> {
    fn drop(self) {
        let Self {
            outbox: _,
            outlet: _,
            most_waiting: _,
            reads_many: _,
            kept: _,
        } = self;
    }
}

impl<S> Model for Socket<S> {
    ghost use Rattle.ws_serve.specs.Traffic.{Traffic, traffic_of, texts_of};

    ghost Value = { Traffic };

    ghost view = { λ s. traffic_of s.outbox (texts_of s.kept) };
}

impl<S: Drop> Socket<S> {
    /// A WebSocket behind its handshake.
    pub fn new(alloc: Global, stream: S, most_waiting: usize) -> Result<Socket<S>, AllocError>
        ensures { IfOk result IsFresh }
    {
        let outbox = Outbox::new(alloc, stream, limits(), FEW_BYTES)?;
        Ok(Socket {
            outbox,
            outlet: Outlet::Open,
            most_waiting,
            reads_many: false,
            kept: None,
        })
    }
}

impl<S> Socket<S> {
    /// What the stream took is the beginning of what was put.
    pub fn always_takes(&self)
        ensures { IsPrefix self.now.taken self.now.said }
    {
        let _outbox = &self.outbox;
    }

    /// Whether something waits to be sent.
    pub fn has_waiting(&self) -> bool {
        self.outbox.has_unwritten() || self.outbox.waiting() > 0
    }

    /// Whether the stream would block while more waits than may.
    pub fn is_full(&self) -> bool {
        self.outbox.has_unwritten()
            || (self.outlet != Outlet::Open && self.outbox.waiting() > self.most_waiting)
    }

    /// The stream may take something again.
    pub fn retry(&mut self)
        ensures { self.new ≡ self.old }
    {
        if self.outlet == Outlet::Full {
            self.outlet = Outlet::Open;
        }
    }

    /// Gives back what room is held that nothing stands in.
    pub fn rest(&mut self)
        ensures { self.new ≡ self.old }
    {
        self.outbox.rest();
    }

    /// The text, which was heard last, is heard again.
    pub fn put_back(&mut self, text: String)
        ensures { self.new ≡ record self.old { back = string_bytes text ∷ [] } }
    {
        self.kept = Some(text);
    }

    /// From now on a read asks for many bytes.
    pub fn read_many(&mut self)
        ensures { self.new ≡ self.old }
    {
        self.reads_many = true;
    }
}

impl<S: Write> Socket<S> {
    /// Sends what waits, as far as the stream takes it. The rest still waits.
    pub fn send(&mut self) -> Result<(), LinkFault>
        ensures fault { IfErr result IsOfStream }
        ensures rests { Rests self.old self.new }
    {
        if !self.has_waiting() {
            return Ok(());
        }
        match self.outlet {
            Outlet::Open => {}
            Outlet::Full => return Ok(()),
            Outlet::Broken => return Err(LinkFault::Link),
        }
        match self.outbox.send() {
            Ok(()) => Ok(()),
            Err(error) => self.unsent(error),
        }
    }

    // Notes why not all was sent.
    fn unsent(&mut self, error: io::Error) -> Result<(), LinkFault>
        ensures fault { IfErr result IsOfStream }
        ensures same { self.new ≡ self.old }
    {
        if would_block(&error) {
            self.outlet = Outlet::Full;
            return Ok(());
        }
        self.outlet = Outlet::Broken;
        Err(broken(Fault::Stream(error)))
    }

    /// Puts a message behind what waits. It is written, as one frame (RFC 6455, section 5.2), unless the stream would block while more
    /// waits than may. What has to be written for it is written where room is, which is given back.
    pub fn put(&mut self, room: String, message: FromRelay) -> Result<String, LinkFault>
        ensures fault { IfErr result IsOfStream }
        ensures whole { OnOk result (Says self.old self.new (spoken_one (relay_form message))) }
        ensures failed { OnErr result (MaySay self.old self.new (spoken_one (relay_form message))) }
    {
        if self.is_full() {
            self.outbox.put_later(message)?;
            return Ok(room);
        }
        let before = self.outbox.waiting();
        let room = self.outbox.put(room, message)?;
        let waiting = self.outbox.waiting();
        if waiting.saturating_sub(before) >= MANY || waiting >= MOST_GATHERED {
            self.send()?;
        }
        Ok(room)
    }

    /// Puts a close behind what waits.
    pub fn put_close(&mut self) -> Result<(), LinkFault>
        ensures fault { IfErr result IsOfStream }
        ensures closes { OnOk result (PutsClose self.old self.new) }
        ensures failed { OnErr result (Rests self.old self.new) }
    {
        match self.outbox.put_close() {
            Ok(()) => Ok(()),
            Err(error) => Err(broken(Fault::Frame(error))),
        }
    }

    /// Reads a frame of what has come, or gives the text that was put back. Its reply, if it asks for one, is put in place of these bytes.
    pub fn hear(&mut self, reply: &mut Vec<u8>) -> Result<Heard, LinkFault>
        ensures fault { IfErr result IsOfStream }
        ensures hears { IfOk result (Hears self.old self.new reply.new.items) }
        ensures failed { OnErr result (Holds self.old self.new) }
    {
        reply.clear();
        if let Some(text) = self.kept.take() {
            return Ok(Heard::Text(text));
        }
        match self.outbox.hear_apart(reply) {
            Ok(heard) => Ok(heard),
            Err(error) => Err(broken(Fault::Frame(error))),
        }
    }

    /// Puts a reply behind what waits.
    pub fn put_reply(&mut self, reply: &[u8]) -> Result<(), LinkFault>
        ensures fault { IfErr result IsOfStream }
        ensures whole { OnOk result (Says self.old self.new reply.now) }
        ensures failed { OnErr result (Rests self.old self.new) }
    {
        self.outbox.put_frames(reply)?;
        Ok(())
    }
}

impl<S: Read> Socket<S> {
    /// Reads what the stream has, once, and tells whether that is anything: else the stream would block.
    pub fn fill(&mut self) -> Result<bool, LinkFault>
        ensures fault { IfErr result IsOfStream }
        ensures gives { Gives self.old self.new }
    {
        if self.reads_many {
            self.outbox.ask_for(MANY_BYTES)?;
        }
        match self.outbox.fill() {
            Ok(()) => Ok(true),
            Err(error) => {
                if would_block(&error) {
                    return Ok(false);
                }
                Err(broken(Fault::Stream(error)))
            }
        }
    }
}
