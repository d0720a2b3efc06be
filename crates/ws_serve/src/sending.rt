//! What a client is sent.
ghost use Rattle.std.specs.Prelude.{◌≡◌, ◌≤◌, false, length, map, IfErr, OnOk, OnErr};
ghost use mathlib.Core.List.{IsPrefix};
ghost use Rattle.nostr_wire.specs.Forms.{relay_form};
ghost use Rattle.relay_core.specs.Acknowledging.{acknowledges, AcknowledgeNone};
ghost use Rattle.relay_core.specs.Faults.{GoesOnBy};
ghost use Rattle.relay_core.specs.Stored.{placed_answer};
ghost use Rattle.ws_serve.specs.Answering.{SaysDue, IfOpen};
ghost use Rattle.ws_serve.specs.Frames.{spoken, spoken_one};
ghost use Rattle.ws_serve.specs.Served.{GoesOn, Stops};
ghost use Rattle.ws_serve.specs.Steps.{SaysSome};
ghost use Rattle.ws_serve.specs.Traffic.{Says, MaySay, ReadsNone};
ghost use Rattle.ws_socket.specs.Faults.{IsOfStream};

use crate::fault::on_link;
use crate::socket::Socket;
use event_log::Kept;
use event_store::{Naming, Placed, Reader};
use nostr_wire::FromRelay;
use relay_core::Conn;
use std::alloc::Global;
use std::io::Write;
use ws_socket::LinkFault;

/// In so many parts what was published for the client is sent at once. Each has an event at least.
const MOST_PARTS: u32 = 1_000_000;

/// Puts what was published for the client behind what waits to be sent. Where that is much it comes in parts, and what waits is sent
/// behind each but the last. Where the stream would block, and more waits than may, what is left stays for a later call.
pub fn catch_up<S: Write, J: Naming>(
    alloc: Global,
    socket: &mut Socket<S>,
    conn: &mut Conn,
    reader: &mut Reader<J>,
) -> Result<(), LinkFault>
    ensures fault { IfErr result IsOfStream }
    ensures due { OnOk result (IfOpen (SaysDue reader.new socket.old socket.new) conn.old.kept conn.new.kept) }
    ensures goes_on { OnOk result (GoesOn conn.old socket.old reader.old conn.new socket.new reader.new) }
    ensures stops { OnErr result (Stops conn.old socket.old reader.old conn.new socket.new reader.new) }
    ensures reads { OnOk result (ReadsNone socket.old socket.new) }
    ensures limits { conn.new.limits ≡ conn.old.limits }
    ensures reader { IsPrefix reader.old reader.new }
{
    for _part in 0..MOST_PARTS {
        if socket.is_full() {
            return Ok(());
        }
        let caught = on_link(conn.catch_up(reader))?;
        say_all(alloc, socket, caught.out)?;
        if caught.is_all {
            return Ok(());
        }
        socket.send()?;
    }
    Ok(())
}

/// Puts the messages, none of which is an OK with true, behind what waits to be sent. Each is dropped once it is written, and its memory
/// is at hand for the next.
#[tactic(auto, using(crate::proofs::Putting::says_none, crate::proofs::Framing::says_more))]
pub fn say_all<S: Write>(
    alloc: Global,
    socket: &mut Socket<S>,
    messages: Vec<FromRelay>,
) -> Result<(), LinkFault>
    requires none_acknowledged { AcknowledgeNone (map relay_form messages.items) }
    ensures fault { IfErr result IsOfStream }
    ensures says { OnOk result (Says socket.old socket.new (spoken (map relay_form messages.items))) }
    ensures failed { OnErr result (SaysSome socket.old socket.new (spoken (map relay_form messages.items))) }
{
    let mut room = String::new(alloc);
    for message in messages {
        room = say(socket, room, message)?;
    }
    Ok(())
}

/// Puts the message, which is no OK with true, behind what waits to be sent. What has to be written for it is written where room is,
/// which is given back.
pub fn say<S: Write>(
    socket: &mut Socket<S>,
    room: String,
    message: FromRelay,
) -> Result<String, LinkFault>
    requires not_acknowledged { acknowledges (relay_form message) ≡ false }
    ensures fault { IfErr result IsOfStream }
    ensures says { OnOk result (Says socket.old socket.new (spoken_one (relay_form message))) }
    ensures failed { OnErr result (MaySay socket.old socket.new (spoken_one (relay_form message))) }
{
    socket.put(room, message)
}

/// Puts OK with true behind what waits to be sent, for an event that is in the store and kept there. The reader learns of it. Its text
/// is made where room is, which is given back.
pub fn acknowledge<S: Write, J: Naming, M>(
    socket: &mut Socket<S>,
    room: String,
    conn: &mut Conn,
    reader: &mut Reader<J>,
    placed: &Placed<J>,
    kept: &Kept<J, M>,
) -> Result<String, LinkFault>
    requires kept { length placed.now.list ≤ length kept.now }
    ensures fault { IfErr result IsOfStream }
    ensures says { OnOk result (Says socket.old socket.new (spoken_one (placed_answer placed.now.id placed.now.fresh))) }
    ensures failed { OnErr result (MaySay socket.old socket.new (spoken_one (placed_answer placed.now.id placed.now.fresh))) }
    ensures kept_so { OnOk result (GoesOnBy (λ old new. new ≡ old) conn.old.kept conn.new.kept) }
    ensures limits { conn.new.limits ≡ conn.old.limits }
    ensures reader { IsPrefix reader.old reader.new }
{
    let message = on_link(conn.stored(reader, placed, kept))?;
    socket.put(room, message)
}
