//! A WebSocket over a stream.

ghost use Rattle.std.specs.Prelude.{◌≡◌, ◌≢◌, ◌≤◌, ◌+◌, ◌++◌, [], OnOk, OnErr, IfOk, IfSome, Some, None, option_map, length, take, drop, vec_len, vec_capacity};
ghost use Rattle.std.specs.Io.KnownBytes.{Keeps, Appends, Consumes};
ghost use Rattle.websocket.specs.Content.{message_content, received_content, IsReceivedInside, HasValidText};
ghost use Rattle.websocket.specs.Connection.{close_step, read_step, failed_connection};
ghost use Rattle.websocket.specs.View.{Leaves, Returns, ReadLeaves, KeepsRest, IfMessage, IfReceived};
ghost use Rattle.wire.specs.Frames.{Puts, text_frame};
ghost use Rattle.wire.specs.Turns.{Means, Hears, HearsApart};
ghost use Rattle.wire.specs.Line.{Line, Fills, Hands, Rests, fresh, talk_of};

use crate::heard::Heard;
use crate::trail::Trail;
use std::alloc::{AllocError, Global};
use std::io;
use std::io::{ErrorKind, Read, Write};
use std::marker::Model;
use websocket::error::Error as FrameError;
use websocket::protocol::frame::FrameHeader;
use websocket::protocol::frame::coding::{Data, OpCode};
use websocket::protocol::{
    FrameStatus, MaskKeys, Message as Words, NoMask, Role, Step, WebSocketConfig, WebSocketContext,
};

/// Room for more bytes isn't held by a connection at rest.
const MUCH: usize = 16_384;

/// A WebSocket over a stream. `K` gives a client's masking keys.
pub struct Wire<S, K> {
    alloc: Global,
    stream: S,
    keys: K,
    context: WebSocketContext,
    // What was read. From `start` on it is not yet part of a frame.
    input: Vec<u8>,
    start: usize,
    // What waits to be sent.
    output: Vec<u8>,
    // Where a read puts its bytes.
    chunk: Vec<u8>,
    given: Trail,
    taken: Trail,
}

// By hand, as a derived one is proved anew wherever a value is dropped.
impl<S: Drop, K: Drop> Drop for Wire<S, K> {
    fn drop(self) {
        let Self {
            alloc: _,
            stream: _,
            keys: _,
            context: _,
            input: _,
            start: _,
            output: _,
            chunk: _,
            given: _,
            taken: _,
        } = self;
    }
}

impl<S, K> Model for Wire<S, K> {
    ghost use Rattle.std.specs.Prelude.{◌≤◌, drop, length};
    ghost use Rattle.wire.specs.Line.{Line};

    ghost Value = { Line S };

    ghost view = { λ w. record {
      stream = w.stream;
      conn = w.context;
      input = drop w.start w.input.items;
      output = w.output.items;
      given = w.given;
      taken = w.taken;
    } };

    ghost invariant = { λ w. w.start ≤ length w.input.items };
}

impl<S: Drop, K: Drop> Wire<S, K> {
    /// A connection behind its handshake, of which these bytes were read already. Longer messages and frames than the
    /// configuration allows are refused. A read asks for `read_bytes` bytes.
    pub fn new(
        alloc: Global,
        stream: S,
        input: Vec<u8>,
        keys: K,
        role: Role,
        config: WebSocketConfig,
        read_bytes: usize,
    ) -> Result<Wire<S, K>, AllocError>
        ensures talk { IfOk result (λ w. talk_of w ≡ fresh role config input.items) }
        ensures stream { IfOk result (λ w. w.stream ≡ stream) }
    {
        let chunk = vec![in alloc; 0; read_bytes]?;
        let given = Trail::of(&input);
        Ok(Wire {
            alloc,
            stream,
            keys,
            context: WebSocketContext::new(alloc, role, config),
            input,
            start: 0,
            output: Vec::new(alloc),
            chunk,
            given,
            taken: Trail::new(),
        })
    }

    /// The bytes that the stream gave and took. The stream is let go.
    pub fn into_trails(self) -> (Trail, Trail)
        ensures given { result.0 ≡ self.given }
        ensures taken { result.1 ≡ self.taken }
    {
        let Wire {
            alloc: _,
            stream: _,
            keys: _,
            context: _,
            input: _,
            start: _,
            output: _,
            chunk: _,
            given,
            taken,
        } = self;
        (given, taken)
    }
}

impl<S, K> Wire<S, K> {
    /// How many bytes wait to be sent.
    pub fn waiting(&self) -> usize
        ensures { result ≡ length self.now.output }
    {
        self.output.len()
    }

    /// Gives back what room is held that nothing stands in.
    pub fn rest(&mut self)
        ensures { self.new ≡ self.old }
    {
        if self.output.is_empty() && self.output.capacity() > MUCH {
            self.output = Vec::new(self.alloc);
        }
        if self.start == self.input.len() && self.input.capacity() > MUCH {
            self.input = Vec::new(self.alloc);
            self.start = 0;
        }
    }

    /// From now on a read asks for so many bytes.
    pub fn ask_for(&mut self, read_bytes: usize) -> Result<(), AllocError>
        ensures { self.new ≡ self.old }
    {
        if self.chunk.len() != read_bytes {
            self.chunk.resize(read_bytes, 0)?;
        }
        Ok(())
    }
}

impl<S, K> Wire<S, K> {
    /// Puts these bytes, which are whole frames, behind what waits.
    pub fn put_frames(&mut self, frames: &[u8]) -> Result<(), AllocError>
        ensures whole { OnOk result (self.new ≡ record self.old { output = self.old.output ++ frames.now }) }
        ensures none { OnErr result (self.new ≡ self.old) }
    {
        self.output.extend_from_slice(frames)?;
        Ok(())
    }
}

impl<S> Wire<S, NoMask> {
    /// Puts a server's text, as one frame, behind what waits. It is taken in any state of the connection: behind a frame that broke
    /// the protocol what came before it may still be answered. The caller sees to it that none stands behind a close.
    pub fn put_unmasked(&mut self, text: &[u8]) -> Result<(), AllocError>
        ensures whole { OnOk result (self.new ≡ record self.old { output = self.old.output ++ text_frame None text.now }) }
        ensures none { OnErr result (self.new ≡ self.old) }
    {
        self.put_unmasked_parts(text, &[], &[])
    }

    /// The same of a text in three parts, which are put one behind the other.
    pub fn put_unmasked_parts(
        &mut self,
        first: &[u8],
        second: &[u8],
        third: &[u8],
    ) -> Result<(), AllocError>
        ensures whole { OnOk result (self.new ≡ record self.old { output = self.old.output ++ text_frame None ((first.now ++ second.now) ++ third.now) }) }
        ensures none { OnErr result (self.new ≡ self.old) }
    {
        put_frame(&mut self.output, first, second, third)
    }
}

/// How many bytes the parts have together.
fn size_of(first: &[u8], second: &[u8], third: &[u8]) -> Result<usize, AllocError>
    ensures { IfOk result (λ n. n ≡ length ((first.now ++ second.now) ++ third.now)) }
{
    let Some(two) = first.len().checked_add(second.len()) else {
        return Err(AllocError);
    };
    match two.checked_add(third.len()) {
        Some(size) => Ok(size),
        None => Err(AllocError),
    }
}

/// Puts the frame of the text of these parts, without a mask, behind the bytes.
fn put_frame(
    output: &mut Vec<u8>,
    first: &[u8],
    second: &[u8],
    third: &[u8],
) -> Result<(), AllocError>
    ensures whole { OnOk result (output.new.items ≡ output.old.items ++ text_frame None ((first.now ++ second.now) ++ third.now)) }
    ensures none { OnErr result (output.new.items ≡ output.old.items) }
{
    let header = FrameHeader::new(OpCode::Data(Data::Text), None);
    let size = size_of(first, second, third)?;
    // Room for all of it, so that no part is left alone.
    output.reserve(header.len(size as u64).saturating_add(size))?;
    header.format(size as u64, output)?;
    output.extend_from_slice(first)?;
    output.extend_from_slice(second)?;
    output.extend_from_slice(third)?;
    Ok(())
}

impl<S: Read, K> Wire<S, K> {
    /// Reads what the stream has, once. The end of the stream is told as `UnexpectedEof`.
    pub fn fill(&mut self) -> io::Result<()>
        ensures fills { Fills S.remaining self.old self.new }
    {
        drop_front(&mut self.input, self.start);
        self.start = 0;
        let size = self.chunk.len();
        self.input.reserve(size)?;
        let count = read_some(&mut self.stream, &mut self.chunk)?;
        self.given = self.given.and(&self.chunk, count);
        put_front(&mut self.input, &self.chunk, count)
    }
}

/// Reads once, and some bytes.
#[tactic(auto, using(crate::proofs::Passing::kept_by_none))]
fn read_some<S: Read>(stream: &mut S, chunk: &mut Vec<u8>) -> io::Result<usize>
    ensures size { length chunk.new.items ≡ length chunk.old.items }
    ensures given { IfOk result (λ n. (n ≤ length chunk.new.items) × Consumes (S.remaining stream.old) (S.remaining stream.new) (take n chunk.new.items)) }
    ensures some { IfOk result (λ n. n ≢ 0) }
    ensures nothing { OnErr result (Keeps (S.remaining stream.old) (S.remaining stream.new)) }
{
    match stream.read(chunk) {
        Ok(0) => Err(io::Error::from(ErrorKind::UnexpectedEof)),
        Ok(count) => Ok(count),
        Err(error) => Err(error),
    }
}

/// Puts the first so many bytes of the chunk behind the input, for which there is room.
fn put_front(input: &mut Vec<u8>, chunk: &Vec<u8>, count: usize) -> io::Result<()>
    requires within { count ≤ length chunk.now.items }
    requires room { vec_len input.old + length chunk.now.items ≤ vec_capacity input.old }
    ensures { input.new.items ≡ input.old.items ++ take count chunk.now.items }
{
    input.extend_from_slice(&chunk[..count])?;
    Ok(())
}

impl<S: Write, K: MaskKeys> Wire<S, K> {
    /// Sends what waits, and flushes the stream where anything does. Where it fails, what was not sent still waits.
    pub fn send(&mut self) -> io::Result<()>
        ensures hands { Hands S.contents self.old self.new }
        ensures empty { OnOk result (self.new.output ≡ []) }
    {
        // A frame under a key that is none stays here.
        let is_held = self.keys.has_failed();
        let (sent, outcome) = send_all(&mut self.stream, self.output.as_slice(), is_held);
        self.taken = self.taken.and(&self.output, sent);
        drop_front(&mut self.output, sent);
        outcome
    }
}

impl<S, K: MaskKeys> Wire<S, K> {
    /// Puts a text, as one frame, behind what waits. It is refused once a close was put or read.
    pub fn put_text(&mut self, text: &str) -> Result<(), FrameError>
        ensures whole { OnOk result (Puts self.old self.new text.now) }
        ensures none { OnErr result (self.new ≡ self.old) }
    {
        self.context
            .write(Words::Text(text), &mut self.output, &mut self.keys)
    }

    /// Puts a close without a reason behind what waits, unless one was put already.
    pub fn put_close(&mut self) -> Result<(), FrameError>
        ensures put { OnOk result (Leaves (close_step self.old.conn None) self.new.conn self.old.output self.new.output) }
        ensures none { OnErr result (self.new ≡ self.old) }
        ensures rests { Rests self.old self.new }
        ensures input { self.new.input ≡ self.old.input }
    {
        self.context.close(None, &mut self.output, &mut self.keys)
    }

    /// Reads a frame of the input. Its reply, if it asks for one, waits behind what waits.
    pub fn hear(&mut self) -> Result<Heard, FrameError>
        ensures hears { IfOk result (Hears self.old self.new) }
        ensures rests { Rests self.old self.new }
    {
        let mut reply = Vec::new(self.alloc);
        let heard = self.hear_apart(&mut reply)?;
        self.put_frames(reply.as_slice())?;
        Ok(heard)
    }

    /// Reads a frame of the input. Its reply, if it asks for one, is put behind these bytes, and not behind what waits.
    pub fn hear_apart(&mut self, reply: &mut Vec<u8>) -> Result<Heard, FrameError>
        ensures hears { IfOk result (HearsApart self.old self.new reply.old.items reply.new.items) }
        ensures rests { Rests self.old self.new }
        ensures output { self.new.output ≡ self.old.output }
        ensures role { self.new.conn.role ≡ self.old.conn.role }
    {
        match self.read_frame(reply)? {
            FrameStatus::Partial(_) => Ok(Heard::Nothing),
            FrameStatus::Complete(step) => Ok(self.finish_frame(step)?),
        }
    }

    // One step of the protocol on the input.
    fn read_frame(&mut self, reply: &mut Vec<u8>) -> Result<FrameStatus<Step>, FrameError>
        ensures returns { IfOk result (Returns (read_step self.old.conn self.old.input) self.new.input) }
        ensures leaves { OnOk result (ReadLeaves (read_step self.old.conn self.old.input) self.old.conn self.new.conn reply.old.items reply.new.items) }
        ensures keeps_rest { IfOk result (λ status. KeepsRest status self.old.input self.new.input) }
        ensures inside { IfOk result (λ status. IfMessage status (IsReceivedInside self.new.input)) }
        ensures valid_text { IfReceived result self.new.input HasValidText }
        ensures same_len { length self.new.input ≡ length self.old.input }
        ensures rests { Rests self.old self.new }
        ensures output { self.new.output ≡ self.old.output }
        ensures err_state { OnErr result (self.new.conn ≡ failed_connection self.old.conn) }
        ensures role { self.new.conn.role ≡ self.old.conn.role }
    {
        self.context
            .read(&mut self.input[self.start..], reply, &mut self.keys)
    }

    // What a frame says, which is then gone.
    fn finish_frame(&mut self, step: Step) -> Result<Heard, AllocError>
        requires consumed { step.consumed ≤ length self.old.input }
        requires inside { IfSome step.message (IsReceivedInside self.old.input) }
        requires text { IfSome step.message (λ m. HasValidText (received_content self.old.input m)) }
        ensures left { self.new ≡ record self.old { input = drop step.consumed self.old.input } }
        ensures means { IfOk result (Means (option_map (received_content self.old.input) step.message)) }
    {
        let heard = match &step.message {
            Some(received) => meant(self.alloc, received.message(&self.input[self.start..])),
            None => Ok(Heard::Part),
        };
        self.start += step.consumed;
        heard
    }
}

/// Sends the bytes, and tells how many left. Held bytes are not sent.
fn send_all<S: Write>(stream: &mut S, bytes: &[u8], is_held: bool) -> (usize, io::Result<()>)
    ensures within { result.0 ≤ length bytes.now }
    ensures wrote { Appends (S.contents stream.old) (S.contents stream.new) (take result.0 bytes.now) }
    ensures all { OnOk result.1 (result.0 ≡ length bytes.now) }
{
    if bytes.is_empty() {
        return (0, Ok(()));
    }
    if is_held {
        return (0, Err(io::Error::from(ErrorKind::Other)));
    }
    let mut sent = 0;
    for _turn in 0..u64::MAX {
        if sent >= bytes.len() {
            return (sent, stream.flush());
        }
        match stream.write(&bytes[sent..]) {
            Ok(0) => return (sent, Err(io::Error::from(ErrorKind::WriteZero))),
            Ok(count) => sent += count,
            Err(error) => {
                if error.kind() != ErrorKind::Interrupted {
                    return (sent, Err(error));
                }
            }
        }
    }
    (sent, Err(io::Error::from(ErrorKind::TimedOut)))
}

/// Drops the first so many bytes.
fn drop_front(bytes: &mut Vec<u8>, count: usize)
    requires { count ≤ length bytes.old.items }
    ensures { bytes.new.items ≡ drop count bytes.old.items }
{
    // While a long message comes there is nothing to drop in front of it.
    if count == 0 {
        return;
    }
    let len = bytes.len();
    bytes.copy_within(count..len, 0);
    bytes.truncate(len - count);
}

/// What a message says.
fn meant(alloc: Global, message: Words<'_>) -> Result<Heard, AllocError>
    ensures { IfOk result (Means (Some (message_content message.entry))) }
{
    Ok(match message {
        Words::Text(text) => Heard::Text(String::from_str(alloc, text)?),
        Words::Binary(_) => Heard::Binary,
        Words::Ping(_) | Words::Pong(_) => Heard::Other,
        Words::Close(_) => Heard::Close,
    })
}
