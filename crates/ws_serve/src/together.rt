//! Events that came together.

ghost use Rattle.std.specs.Prelude.{◌≡◌, ◌<◌, [], ◌∷◌, map, string_bytes, IfOk, IfErr, IfSome, OnOk, OnErr, MatchResult};
ghost use Rattle.std.specs.Arc.{arc_value};
ghost use Rattle.std.specs.List.{AllByRecursion};
ghost use mathlib.Core.List.{IsPrefix};
ghost use Rattle.nostr_wire.specs.Forms.{relay_form};
ghost use Rattle.relay_core.specs.Acknowledging.{AcknowledgeNone};
ghost use Rattle.relay_core.specs.Faults.{GoesOnBy};
ghost use Rattle.ws_serve.specs.Answering.{SaysOf};
ghost use Rattle.ws_serve.specs.Counts.{AreFew};
ghost use Rattle.ws_serve.specs.Gathered.{ids_of, Follow, MaySayOf, SaysOfAll, SaysOfSome, Gathered, IsAwaited};
ghost use Rattle.ws_serve.specs.Pieces.{words};
ghost use Rattle.ws_serve.specs.Served.{Serving, Served};
ghost use Rattle.ws_socket.specs.Faults.{IsOfStream};

use crate::counts::{Counts, MOST_READS};
use crate::fault::on_link;
use crate::messages::{Next, next_message};
use crate::sending::{acknowledge, catch_up, say, say_all};
use crate::socket::Socket;
use crate::turns::{Turns, serve_text};
use event_log::{Keeper, Kept};
use event_store::{Desk, InsertFault, Naming, Placed, Reader};
use item_key::Id;
use nostr_event::Event;
use nostr_wire::FromRelay;
use relay_core::{Conn, Step, StoringFault};
use std::alloc::Global;
use std::io::Write;
use std::sync::{Arc, Mutex, Wait};
use wire::Heard;
use ws_socket::LinkFault;

/// So many events wait for no more.
pub const MOST_TOGETHER: usize = 64;

/// What came behind events.
#[derive(Drop)]
struct Behind {
    /// The message, if one was read.
    heard: Result<Option<Heard>, LinkFault>,
    /// The answers to the last of the events' texts, if that has none.
    out: Vec<FromRelay>,
}

impl Behind {
    // A message, or none.
    fn message(alloc: Global, heard: Result<Option<Heard>, LinkFault>) -> Behind
        ensures heard { result.heard ≡ heard }
        ensures nothing { result.out.items ≡ [] }
    {
        Behind {
            heard,
            out: Vec::new(alloc),
        }
    }
}

/// Hears the text of an event and those that came behind it, up to a message that is none, and at most 64. These are put into the
/// store together, and their answers, and what was published for the client, are put behind what waits to be sent. It gives that other
/// message, if one was read, whose reply is put behind these bytes.
pub fn take_events<W: Wait, S: Write, J: Naming, D: Wait + Drop, H: Keeper<J>>(
    rt: &W,
    alloc: Global,
    socket: &mut Socket<S>,
    conn: &mut Conn,
    reader: &mut Reader<J>,
    desk: &Mutex<Desk<J, D>>,
    keeper: &H,
    turns: &mut Turns<'_>,
    counts: &mut Counts,
    reply: &mut Vec<u8>,
    text: String,
) -> Result<Option<Heard>, LinkFault>
    requires few { AreFew counts.old }
    requires room { counts.old.reads < 1000000 }
    requires serving { Serving (words (string_bytes text) ∷ []) conn.old socket.old reader.old }
    ensures few { AreFew counts.new }
    ensures room { IfOk result (λ o. IfSome o (λ _. counts.new.reads < 1000000)) }
    ensures fault { IfErr result IsOfStream }
    ensures limits { conn.new.limits ≡ conn.old.limits }
    ensures awaited { IsAwaited result reply.new.items conn.new socket.new reader.new }
    ensures reader { IsPrefix reader.old reader.new }
{
    // Those who send events send many.
    socket.read_many();
    let mut events = Vec::with_capacity(alloc, MOST_TOGETHER)?;
    let gathered = gather(
        rt,
        alloc,
        socket,
        conn,
        reader,
        turns,
        counts,
        reply,
        text,
        &mut events,
    );
    let Behind { heard, out } = match gathered {
        Ok(behind) => behind,
        Err(fault) => {
            // Those that wait came before: they are stored at least.
            let _ = desk.lock(rt).insert_each(rt, events.as_slice());
            return Err(fault);
        }
    };
    answer_each(
        rt,
        alloc,
        socket,
        conn,
        reader,
        desk,
        keeper,
        events.as_slice(),
    )?;
    say_all(alloc, socket, out)?;
    catch_up(alloc, socket, conn, reader)?;
    heard
}

/// Reads events, of which this is the first text.
fn gather<W: Wait, S: Write, J: Naming>(
    rt: &W,
    alloc: Global,
    socket: &mut Socket<S>,
    conn: &mut Conn,
    reader: &mut Reader<J>,
    turns: &mut Turns<'_>,
    counts: &mut Counts,
    reply: &mut Vec<u8>,
    mut text: String,
    events: &mut Vec<Arc<Event>>,
) -> Result<Behind, LinkFault>
    requires few { AreFew counts.old }
    requires room { counts.old.reads < 1000000 }
    requires serving { Serving (words (string_bytes text) ∷ []) conn.old socket.old reader.old }
    requires none { events.old.items ≡ [] }
    ensures few { AreFew counts.new }
    ensures room { IfOk result (λ b. IfOk b.heard (λ o. IfSome o (λ _. counts.new.reads < 1000000))) }
    ensures none_acknowledged { IfOk result (λ b. AcknowledgeNone (map relay_form b.out.items)) }
    ensures fault { IfErr result IsOfStream }
    ensures limits { conn.new.limits ≡ conn.old.limits }
    ensures heard_fault { IfOk result (λ b. IfErr b.heard IsOfStream) }
    ensures gathered { IfOk result (λ b. Gathered (map arc_value events.new.items) b.heard (map relay_form b.out.items) reply.new.items conn.new socket.new reader.new) }
    ensures failed { OnErr result (Served conn.new socket.new reader.new) }
    ensures reader { IsPrefix reader.old reader.new }
{
    for _event in 0..MOST_TOGETHER {
        counts.reads += 1;
        counts.texts += 1;
        let Step { out, store } = serve_text(rt, conn, reader, turns, text.as_str())?;
        let Some(event) = store else {
            return Ok(Behind {
                heard: Ok(None),
                out,
            });
        };
        events.push(event)?;
        if counts.reads >= MOST_READS || events.len() >= MOST_TOGETHER {
            return Ok(Behind::message(alloc, Ok(None)));
        }
        match next_message(socket, reply, turns) {
            Ok(Next::Event(next)) => text = next,
            Ok(Next::Other(heard)) => return Ok(Behind::message(alloc, Ok(Some(heard)))),
            Ok(Next::Later) => return Ok(Behind::message(alloc, Ok(None))),
            Err(fault) => return Ok(Behind::message(alloc, Err(fault))),
        }
    }
    Ok(Behind::message(alloc, Ok(Some(Heard::Text(text)))))
}

/// Puts the events into the store, sees to it that they are kept, and puts the answers to them behind what waits to be sent.
fn answer_each<W: Wait, S: Write, J: Naming, D: Wait + Drop, H: Keeper<J>>(
    rt: &W,
    alloc: Global,
    socket: &mut Socket<S>,
    conn: &mut Conn,
    reader: &mut Reader<J>,
    desk: &Mutex<Desk<J, D>>,
    keeper: &H,
    events: &[Arc<Event>],
) -> Result<(), LinkFault>
    ensures fault { IfErr result IsOfStream }
    ensures says { OnOk result (SaysOfAll (ids_of (map arc_value events.now)) socket.old socket.new) }
    ensures failed { OnErr result (SaysOfSome (ids_of (map arc_value events.now)) socket.old socket.new) }
    ensures kept { OnOk result (conn.new.kept ≡ conn.old.kept) }
    ensures limits { conn.new.limits ≡ conn.old.limits }
    ensures reader { IsPrefix reader.old reader.new }
{
    let all = stored_all(rt, alloc, desk, events)?;
    let kept = kept_of(rt, keeper, all.as_slice());
    let mut room = String::new(alloc);
    for one in all {
        room = tell(socket, room, conn, reader, one, kept.as_ref())?;
    }
    Ok(())
}

/// What became of an event that was put into the store.
#[derive(Drop)]
struct Stored<J: Naming> {
    id: Id,
    placed: Result<Placed<J>, InsertFault<J>>,
}

/// Puts the events into the store, and tells what became of each.
fn stored_all<W: Wait, J: Naming, D: Wait + Drop>(
    rt: &W,
    alloc: Global,
    desk: &Mutex<Desk<J, D>>,
    events: &[Arc<Event>],
) -> Result<Vec<Stored<J>>, LinkFault>
    ensures fault { IfErr result IsOfStream }
    ensures placed { IfOk result (λ v. AllByRecursion (λ s. IfOk s.placed (λ p. p.id ≡ s.id)) v.items) }
    ensures ids { IfOk result (λ v. map (λ s. s.id) v.items ≡ ids_of (map arc_value events.now)) }
{
    let mut all = Vec::with_capacity(alloc, events.len())?;
    let mut placed = placed_together(rt, alloc, desk, events).into_iter();
    for event in events {
        all.push(stored_next(rt, desk, placed.next(), event)?)?;
    }
    Ok(all)
}

/// What became of the event, which was placed with others, or is put into the store by itself.
fn stored_next<W: Wait, J: Naming, D: Wait + Drop>(
    rt: &W,
    desk: &Mutex<Desk<J, D>>,
    placed: Option<Placed<J>>,
    event: &Arc<Event>,
) -> Result<Stored<J>, LinkFault>
    requires { IfSome placed (λ p. p.id ≡ (arc_value event.now).id) }
    ensures fault { IfErr result IsOfStream }
    ensures id { IfOk result (λ s. s.id ≡ (arc_value event.now).id) }
    ensures placed { IfOk result (λ s. IfOk s.placed (λ p. p.id ≡ s.id)) }
{
    match placed {
        Some(placed) => Ok(Stored {
            id: placed.id(),
            placed: Ok(placed),
        }),
        None => Ok(stored_one(rt, desk, Arc::try_clone(event)?)),
    }
}

/// Puts several events into the store at once, as many as it takes; none where no memory was found. Each that is left is put in by
/// itself, which tells why it can't be.
fn placed_together<W: Wait, J: Naming, D: Wait + Drop>(
    rt: &W,
    alloc: Global,
    desk: &Mutex<Desk<J, D>>,
    events: &[Arc<Event>],
) -> Vec<Placed<J>>
    ensures { Follow (map (λ p. p.id) result.items) (ids_of (map arc_value events.now)) }
{
    if events.len() < 2 {
        return Vec::new(alloc);
    }
    let mut held = desk.lock(rt);
    // What was replaced before is taken apart once the next may insert.
    let older = held.replaced();
    let placed = held.insert_each(rt, events);
    drop(held);
    drop(older);
    match placed {
        Ok(placed) => placed,
        Err(_) => Vec::new(alloc),
    }
}

/// Puts the event into the store, and tells what became of it.
fn stored_one<W: Wait, J: Naming, D: Wait + Drop>(
    rt: &W,
    desk: &Mutex<Desk<J, D>>,
    event: Arc<Event>,
) -> Stored<J>
    ensures id { result.id ≡ (arc_value event).id }
    ensures placed { IfOk result.placed (λ p. p.id ≡ (arc_value event).id) }
{
    let id = event.id();
    let placed = match desk.lock(rt).insert(rt, event) {
        Ok(placed) => Ok(placed),
        Err((fault, _event)) => Err(fault),
    };
    Stored { id, placed }
}

/// Sees to it that the events that were placed are kept, the last of which was placed behind all others.
fn kept_of<W: Wait, J: Naming, H: Keeper<J>>(
    rt: &W,
    keeper: &H,
    all: &[Stored<J>],
) -> Option<Kept<J, H::On>> {
    let mut last: Option<&Placed<J>> = None;
    for one in all {
        if let Ok(placed) = &one.placed {
            last = Some(placed);
        }
    }
    keeper.kept(rt, last?)
}

/// Puts behind what waits to be sent whether the event is in the store, and kept there. The text is made where room is, which is given
/// back.
fn tell<S: Write, J: Naming, M>(
    socket: &mut Socket<S>,
    room: String,
    conn: &mut Conn,
    reader: &mut Reader<J>,
    stored: Stored<J>,
    kept: Option<&Kept<J, M>>,
) -> Result<String, LinkFault>
    requires { IfOk stored.placed (λ p. p.id ≡ stored.id) }
    ensures fault { IfErr result IsOfStream }
    ensures says { OnOk result (SaysOf stored.id socket.old socket.new) }
    ensures failed { OnErr result (MaySayOf stored.id socket.old socket.new) }
    ensures kept { OnOk result (GoesOnBy (λ old new. new ≡ old) conn.old.kept conn.new.kept) }
    ensures limits { conn.new.limits ≡ conn.old.limits }
    ensures reader { IsPrefix reader.old reader.new }
{
    let Stored { id, placed } = stored;
    match placed {
        Ok(placed) => tell_kept(socket, room, conn, reader, &placed, kept),
        Err(fault) => refuse(socket, room, conn, id, &StoringFault::Refused(fault)),
    }
}

/// The same for an event that is in the store.
fn tell_kept<S: Write, J: Naming, M>(
    socket: &mut Socket<S>,
    room: String,
    conn: &mut Conn,
    reader: &mut Reader<J>,
    placed: &Placed<J>,
    kept: Option<&Kept<J, M>>,
) -> Result<String, LinkFault>
    ensures fault { IfErr result IsOfStream }
    ensures says { OnOk result (SaysOf placed.now.id socket.old socket.new) }
    ensures failed { OnErr result (MaySayOf placed.now.id socket.old socket.new) }
    ensures kept { OnOk result (GoesOnBy (λ old new. new ≡ old) conn.old.kept conn.new.kept) }
    ensures limits { conn.new.limits ≡ conn.old.limits }
    ensures reader { IsPrefix reader.old reader.new }
{
    match kept {
        Some(kept) if placed.front() <= kept.len() => {
            acknowledge(socket, room, conn, reader, placed, kept)
        }
        _ => {
            let fault: StoringFault<J> = StoringFault::Unkept;
            refuse(socket, room, conn, placed.id(), &fault)
        }
    }
}

/// Puts behind what waits to be sent why the event isn't in the store, or isn't kept there.
fn refuse<S: Write, J: Naming>(
    socket: &mut Socket<S>,
    room: String,
    conn: &mut Conn,
    id: Id,
    fault: &StoringFault<J>,
) -> Result<String, LinkFault>
    ensures fault { IfErr result IsOfStream }
    ensures says { OnOk result (SaysOf id socket.old socket.new) }
    ensures failed { OnErr result (MaySayOf id socket.old socket.new) }
    ensures kept { OnOk result (GoesOnBy (λ old new. new ≡ old) conn.old.kept conn.new.kept) }
    ensures limits { conn.new.limits ≡ conn.old.limits }
{
    let message = on_link(conn.unstored(id, fault))?;
    say(socket, room, message)
}

/// Puts the event into the store, sees to it that it is kept, and puts whether it is behind what waits to be sent.
pub fn answer_one<W: Wait, S: Write, J: Naming, D: Wait + Drop, H: Keeper<J>>(
    rt: &W,
    alloc: Global,
    socket: &mut Socket<S>,
    conn: &mut Conn,
    reader: &mut Reader<J>,
    desk: &Mutex<Desk<J, D>>,
    keeper: &H,
    event: Arc<Event>,
) -> Result<(), LinkFault>
    ensures fault { IfErr result IsOfStream }
    ensures says { OnOk result (SaysOf (arc_value event).id socket.old socket.new) }
    ensures failed { OnErr result (MaySayOf (arc_value event).id socket.old socket.new) }
    ensures kept { OnOk result (GoesOnBy (λ old new. new ≡ old) conn.old.kept conn.new.kept) }
    ensures limits { conn.new.limits ≡ conn.old.limits }
    ensures reader { IsPrefix reader.old reader.new }
{
    let one = stored_one(rt, desk, event);
    let kept = match &one.placed {
        Ok(placed) => keeper.kept(rt, placed),
        Err(_) => None,
    };
    tell(socket, String::new(alloc), conn, reader, one, kept.as_ref())?;
    Ok(())
}
