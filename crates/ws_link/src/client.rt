//! The client's side of a link.
ghost use Rattle.std.specs.Prelude.{◌≡◌, IfOk, IfErr, OnOk, true, string_bytes};
ghost use Rattle.nostr_wire.specs.Elements.{is_sub};
ghost use Rattle.nostr_wire.specs.Forms.{client_form};
ghost use Rattle.nostr_wire.specs.Writing.{text_of};
ghost use Rattle.wire.specs.Line.{talk_of};
ghost use Rattle.wire.specs.Talk.{Says, Grows};
ghost use Rattle.ws_socket.specs.Faults.{IsOfStream};
ghost use Rattle.ws_link.specs.Messages.{Means, MayHear};
ghost use Rattle.ws_link.specs.Spoken.{IsClient};

use crate::head::HeadStream;
use crate::notes::Notes;
use event_text::EventScratch;
use nostr_event::Text;
use nostr_wire::{FromClient, FromRelay, Sub, WireFault, read_relay_in, write_client};
use std::alloc::{AllocError, Global};
use std::io::{Read, Write};
use std::random::RandomSource;
use tungstenite::handshake::client::{request_of, start};
use tungstenite::{Error as SocketError, HandshakeError, MaskKeys, NoMask, RandomKeys, Role};
use wire::{Message, Wire};
use ws_socket::{LinkFault, MANY_BYTES, Reason, limits};

/// Does the client's handshake, which names this host and path. The masking keys come from `source`.
pub fn connected<S: Read + Write + Drop, R: RandomSource + Drop>(
    alloc: Global,
    source: R,
    stream: S,
    host: &str,
    path: &str,
    notes: &mut Notes,
) -> Result<Wire<S, RandomKeys<R>>, LinkFault>
    ensures client { IfOk result (λ w. IsClient (talk_of w)) }
    ensures err { IfErr result IsOfStream }
{
    let uri = format!(in alloc; "ws://{host}{path}")?;
    let HeadStream { stream, rest, .. } = greeted(
        alloc,
        &source,
        HeadStream::new(alloc, stream),
        uri.as_str(),
        notes,
    )?;
    let keys = RandomKeys::new(source);
    let wire = Wire::new(
        alloc,
        stream,
        rest,
        keys,
        Role::Client,
        limits(),
        MANY_BYTES,
    )?;
    Ok(wire)
}

/// Does the client's handshake, with a nonce from `source`.
fn greeted<S: Read + Write + Drop, R: RandomSource>(
    alloc: Global,
    source: &R,
    stream: HeadStream<S>,
    uri: &str,
    notes: &mut Notes,
) -> Result<HeadStream<S>, LinkFault>
    ensures { IfErr result IsOfStream }
{
    let request = match request_of(alloc, uri) {
        Ok(request) => request,
        Err(error) => return Err(notes.failed(error)),
    };
    let mut nonce = [0; 16];
    if let Err(error) = source.fill_bytes(&mut nonce) {
        return Err(notes.failed(SocketError::Io(error)));
    }
    // No frame is sent yet, so no key is needed.
    let begun = match start(alloc, nonce, NoMask, request, stream, None) {
        Ok(begun) => begun,
        Err(error) => return Err(notes.failed(error)),
    };
    match begun.handshake() {
        Ok((socket, _response)) => Ok(socket.into_inner()),
        Err(HandshakeError::Failure(error)) => Err(notes.failed(error)),
        Err(HandshakeError::Interrupted(_)) => {
            notes.tell(Reason::TimedOut);
            Err(LinkFault::Link)
        }
    }
}

/// The name of a subscription or a session.
pub fn named(alloc: Global, name: &str) -> Result<Sub, LinkFault>
    requires { is_sub name.now ≡ true }
    ensures value { IfOk result (λ s. s ≡ name.now) }
    ensures memory { IfErr result (λ f. f ≡ LinkFault.Memory) }
{
    match Sub::new(Text::new(String::from_str(alloc, name)?)) {
        Ok(sub) => Ok(sub),
        Err(_) => unreachable!(),
    }
}

/// The same text.
pub fn copy_of(alloc: Global, text: &Text) -> Result<Text, LinkFault>
    ensures { IfErr result (λ f. f ≡ LinkFault.Memory) }
{
    Ok(Text::new(String::from_str(alloc, text.as_str())?))
}

/// The text of a message.
fn written(alloc: Global, message: FromClient) -> Result<String, AllocError>
    ensures { IfOk result (λ s. string_bytes s ≡ text_of (client_form message)) }
{
    write_client(alloc, &message)
}

/// Sends a message.
#[tactic(auto, using(wire::proofs::Growing::grows_same))]
pub fn say<S: Read + Write, K: MaskKeys>(
    alloc: Global,
    wire: &mut Wire<S, K>,
    message: FromClient,
    notes: &mut Notes,
) -> Result<(), LinkFault>
    ensures said { OnOk result (Says (talk_of wire.old) (talk_of wire.new) (text_of (client_form message))) }
    ensures grows { Grows (talk_of wire.old) (talk_of wire.new) }
    ensures err { IfErr result IsOfStream }
{
    let text = written(alloc, message)?;
    match wire.say(text.as_str()) {
        Ok(()) => Ok(()),
        Err(fault) => Err(notes.broken(fault)),
    }
}

/// Closes the connection.
pub fn close<S: Read + Write, K: MaskKeys>(
    wire: &mut Wire<S, K>,
    notes: &mut Notes,
) -> Result<(), LinkFault>
    ensures { IfErr result IsOfStream }
{
    match wire.close() {
        Ok(()) => Ok(()),
        Err(fault) => Err(notes.broken(fault)),
    }
}

/// Reads a message. It gives `None` for one that has nothing to do with any call.
pub fn heard<S: Read + Write, K: MaskKeys>(
    alloc: Global,
    wire: &mut Wire<S, K>,
    scratch: &mut EventScratch,
    notes: &mut Notes,
) -> Result<Option<FromRelay>, LinkFault>
    ensures hears { IfOk result (MayHear (talk_of wire.old) (talk_of wire.new)) }
    ensures grows { Grows (talk_of wire.old) (talk_of wire.new) }
    ensures err { IfErr result IsOfStream }
{
    match wire.listen() {
        Ok(Message::Text(text)) => meant(alloc, scratch, text.as_str(), notes),
        Ok(Message::Close) => {
            notes.tell(Reason::Closed);
            Err(LinkFault::Link)
        }
        Ok(Message::Binary) => Ok(None),
        Ok(Message::Other) => Ok(None),
        Err(fault) => Err(notes.broken(fault)),
    }
}

/// What a relay says in the text. A message of another name, and an event that is refused, say nothing, and what it says of
/// itself is noted.
pub fn meant(
    alloc: Global,
    scratch: &mut EventScratch,
    text: &str,
    notes: &mut Notes,
) -> Result<Option<FromRelay>, LinkFault>
    ensures means { IfOk result (Means text.now) }
    ensures err { IfErr result IsOfStream }
{
    match read_relay_in(alloc, scratch, text) {
        Ok(FromRelay::Notice { text }) => {
            notes.hear(text);
            Ok(None)
        }
        Ok(message) => Ok(Some(message)),
        Err(WireFault::Kind) => Ok(None),
        Err(WireFault::Event(_, _)) => Ok(None),
        Err(WireFault::Filter) => Ok(None),
        Err(WireFault::Memory) => Err(LinkFault::Memory),
        Err(WireFault::Json | WireFault::Arity | WireFault::Sub | WireFault::HexText) => {
            notes.tell(Reason::NoMessage);
            Err(LinkFault::Wire)
        }
    }
}
