//! A server's WebSocket on which messages may wait for others.
ghost use Rattle.std.specs.Prelude.{◌≡◌, [], ◌++◌, map, drop, None, Ok, IfOk, OnOk, OnErr};
ghost use Rattle.nostr_wire.specs.Forms.{relay_form};
ghost use Rattle.websocket.specs.Connection.{close_step};
ghost use Rattle.websocket.specs.View.{Leaves};
ghost use Rattle.websocket.specs.declared.protocol.config.Role.TheVariants.{Server};
ghost use Rattle.wire.specs.Line.{Fills, Rests as LineRests, fresh, talk_of};
ghost use Rattle.wire.specs.Turns.{HearsApart};
ghost use Rattle.ws_serve.specs.Frames.{spoken_one};
ghost use Rattle.ws_serve.specs.Outbox.{held, Writes, Passes};

use nostr_wire::{FromRelay, write_relay_in};
use std::alloc::{AllocError, Global};
use std::collections::VecDeque;
use std::io;
use std::io::{Read, Write};
use std::marker::Model;
use tungstenite::{NoMask, Role};
use websocket::error::Error as FrameError;
use websocket::protocol::WebSocketConfig;
use wire::{Heard, Wire};

/// Messages that wait are written once fewer bytes than these wait before them.
const MOST_WRITTEN: usize = 65_536;

/// A server's WebSocket over a stream. Behind the bytes that wait for the stream messages may wait that aren't written yet: they share
/// their events with the store, so that a long answer takes little memory until the stream takes it.
pub struct Outbox<S> {
    alloc: Global,
    wire: Wire<S, NoMask>,
    // Messages behind all that waits in the wire.
    later: VecDeque<FromRelay>,
}

// By hand, as a derived one is proved anew wherever a value is dropped.
impl<S: Drop> Drop for Outbox<S> {
    fn drop(self) {
        let Self {
            alloc: _,
            wire: _,
            later: _,
        } = self;
    }
}

impl<S> Model for Outbox<S> {
    ghost use Rattle.std.specs.Prelude.{map};
    ghost use Rattle.nostr_wire.specs.Forms.{relay_form};
    ghost use Rattle.wire.specs.Line.{Line};
    ghost use Rattle.ws_serve.specs.Outbox.{held};

    ghost Value = { Line S };

    ghost view = { λ o. held o.wire (map relay_form o.later.items) };
}

impl<S: Drop> Outbox<S> {
    /// A WebSocket behind its handshake. A read asks for `read_bytes` bytes.
    pub fn new(
        alloc: Global,
        stream: S,
        config: WebSocketConfig,
        read_bytes: usize,
    ) -> Result<Outbox<S>, AllocError>
        ensures { IfOk result (λ o. talk_of o ≡ fresh Server config []) }
    {
        let nothing = Vec::new(alloc);
        let wire = Wire::new(
            alloc,
            stream,
            nothing,
            NoMask,
            Role::Server,
            config,
            read_bytes,
        )?;
        Ok(Outbox {
            alloc,
            wire,
            later: VecDeque::new(alloc),
        })
    }
}

impl<S> Outbox<S> {
    /// How many bytes wait for the stream, beside messages that aren't written yet.
    pub fn waiting(&self) -> usize {
        self.wire.waiting()
    }

    /// Whether messages wait that aren't written yet.
    pub fn has_unwritten(&self) -> bool {
        !self.later.is_empty()
    }

    /// Gives back what room is held that nothing stands in.
    pub fn rest(&mut self)
        ensures { self.new ≡ self.old }
    {
        self.wire.rest();
        if self.later.is_empty() {
            self.later.shrink_to_fit();
        }
    }

    /// From now on a read asks for so many bytes.
    pub fn ask_for(&mut self, read_bytes: usize) -> Result<(), AllocError>
        ensures { self.new ≡ self.old }
    {
        self.wire.ask_for(read_bytes)
    }

    /// Puts the message behind all that waits, to be written later.
    pub fn put_later(&mut self, message: FromRelay) -> Result<(), AllocError>
        ensures whole { OnOk result (self.new ≡ record self.old { output = self.old.output ++ spoken_one (relay_form message) }) }
        ensures none { OnErr result (self.new ≡ self.old) }
    {
        self.later.push_back(message)?;
        Ok(())
    }

    /// Puts the message behind all that waits, written as one frame (RFC 6455, section 5.2) unless others wait that aren't. What has to
    /// be written for it is written where room is, which is given back.
    pub fn put(&mut self, room: String, message: FromRelay) -> Result<String, AllocError>
        ensures whole { OnOk result (self.new ≡ record self.old { output = self.old.output ++ spoken_one (relay_form message) }) }
        ensures none { OnErr result (self.new ≡ self.old) }
    {
        match self.later.front() {
            Some(_) => {
                self.put_later(message)?;
                Ok(room)
            }
            None => {
                let room = put_text(self.alloc, &mut self.wire, room, &message)?;
                drop(message);
                Ok(room)
            }
        }
    }

    /// Puts these bytes, which are whole frames, behind all that waits.
    pub fn put_frames(&mut self, frames: &[u8]) -> Result<(), AllocError>
        ensures whole { OnOk result (self.new ≡ record self.old { output = self.old.output ++ frames.now }) }
        ensures none { OnErr result (self.new ≡ self.old) }
    {
        write_all(self.alloc, &mut self.wire, &mut self.later)?;
        self.wire.put_frames(frames)
    }

    /// Puts a close without a reason behind all that waits, unless one was put already.
    pub fn put_close(&mut self) -> Result<(), FrameError>
        ensures put { OnOk result (Leaves (close_step self.old.conn None) self.new.conn self.old.output self.new.output) }
        ensures none { OnErr result (self.new ≡ self.old) }
        ensures rests { LineRests self.old self.new }
        ensures input { self.new.input ≡ self.old.input }
    {
        write_all(self.alloc, &mut self.wire, &mut self.later)?;
        self.wire.put_close()
    }

    /// Reads a frame of the input. Its reply, if it asks for one, is put behind these bytes, and not behind what waits.
    pub fn hear_apart(&mut self, reply: &mut Vec<u8>) -> Result<Heard, FrameError>
        ensures hears { IfOk result (HearsApart self.old self.new reply.old.items reply.new.items) }
        ensures rests { LineRests self.old self.new }
        ensures output { self.new.output ≡ self.old.output }
    {
        self.wire.hear_apart(reply)
    }
}

/// Writes messages that wait, until many bytes wait before the others.
fn write_some<S>(
    alloc: Global,
    wire: &mut Wire<S, NoMask>,
    later: &mut VecDeque<FromRelay>,
) -> Result<(), AllocError>
    ensures { Writes wire.old (map relay_form later.old.items) wire.new (map relay_form later.new.items) }
{
    let mut room = String::new(alloc);
    for _message in 0..u64::MAX {
        if wire.waiting() >= MOST_WRITTEN {
            return Ok(());
        }
        match write_first(alloc, wire, later, room)? {
            Some(left) => room = left,
            None => return Ok(()),
        }
    }
    Ok(())
}

/// Writes all messages that wait.
fn write_all<S>(
    alloc: Global,
    wire: &mut Wire<S, NoMask>,
    later: &mut VecDeque<FromRelay>,
) -> Result<(), AllocError>
    ensures writes { Writes wire.old (map relay_form later.old.items) wire.new (map relay_form later.new.items) }
    ensures all { OnOk result (later.new.items ≡ []) }
{
    let mut room = String::new(alloc);
    for _message in 0..u64::MAX {
        match write_first(alloc, wire, later, room)? {
            Some(left) => room = left,
            None => return Ok(()),
        }
    }
    Err(AllocError)
}

/// Writes the first of the messages that wait, if there is one, by way of room, which is given back then.
fn write_first<S>(
    alloc: Global,
    wire: &mut Wire<S, NoMask>,
    later: &mut VecDeque<FromRelay>,
    room: String,
) -> Result<Option<String>, AllocError>
    ensures writes { Writes wire.old (map relay_form later.old.items) wire.new (map relay_form later.new.items) }
    ensures none { result ≡ Ok None → later.new.items ≡ [] }
{
    let Some(message) = later.front() else {
        return Ok(None);
    };
    let room = put_text(alloc, wire, room, message)?;
    drop_first(later);
    Ok(Some(room))
}

/// Drops the first of the messages, if there is one.
fn drop_first(later: &mut VecDeque<FromRelay>)
    ensures { later.new.items ≡ drop 1 later.old.items }
{
    drop(later.pop_front());
}

/// Puts the message's text, as one frame, behind what waits in the wire. An event's own text is copied there from the event; what else
/// the message says is written where room is, which is given back.
fn put_text<S>(
    alloc: Global,
    wire: &mut Wire<S, NoMask>,
    room: String,
    message: &FromRelay,
) -> Result<String, AllocError>
    ensures whole { OnOk result (wire.new ≡ record wire.old { output = wire.old.output ++ spoken_one (relay_form message.now) }) }
    ensures none { OnErr result (wire.new ≡ wire.old) }
{
    match message {
        FromRelay::Event { sub, event } => {
            let begun = sub.begin(room)?;
            wire.put_unmasked_parts(begun.as_bytes(), event.text().as_bytes(), b"]")?;
            Ok(begun)
        }
        other => {
            let text = write_relay_in(alloc, room, other)?;
            wire.put_unmasked(text.as_bytes())?;
            Ok(text)
        }
    }
}

impl<S: Read> Outbox<S> {
    /// Reads what the stream has, once. The end of the stream is told as `UnexpectedEof`.
    pub fn fill(&mut self) -> io::Result<()>
        ensures fills { Fills S.remaining self.old self.new }
    {
        self.wire.fill()
    }
}

impl<S: Write> Outbox<S> {
    /// Sends what waits, and writes messages that wait behind that as far as the stream takes it. Where it fails, what was not sent still
    /// waits.
    pub fn send(&mut self) -> io::Result<()>
        ensures { Passes self.old self.new }
    {
        send_all(self.alloc, &mut self.wire, &mut self.later)
    }
}

/// Sends what waits, and messages that wait behind that, as far as the stream takes it.
fn send_all<S: Write>(
    alloc: Global,
    wire: &mut Wire<S, NoMask>,
    later: &mut VecDeque<FromRelay>,
) -> io::Result<()>
    ensures { Passes (held wire.old (map relay_form later.old.items)) (held wire.new (map relay_form later.new.items)) }
{
    for _part in 0..u64::MAX {
        wire.send()?;
        if later.is_empty() {
            return Ok(());
        }
        write_some(alloc, wire, later)?;
    }
    Ok(())
}
