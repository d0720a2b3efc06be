//! The job `serve`.

ghost use Rattle.std.specs.Prelude.{◌≡◌};

use crate::guest::Guest;
use crate::serving::serve_beside;
use crate::tending::keep_meanwhile;
use client_hall::{Door, Hall, Patience, WAKER};
use event_store::{Blank, Desk, Naming, Reader, open_store};
use mio::net::TcpListener;
use mio::{Poll, Waker};
use mirror_settings::{Address, Job, Settings, SettingsKey, Syncing, read_settings};
use relay_core::RelayLimits;
use std::alloc::Global;
use std::fs::File;
use std::io;
use std::io::Write;
use std::marker::Brand;
use std::net::{Net, ToSocketAddrs};
use std::rt::{Clock, Files};
use std::sync::Wait;
use std::thread::{Threads, available_parallelism};
use store_run::{Keeping, Refusal, begin, keeping_of, say};

/// How many connections are served at once where the settings don't say.
const CLIENTS: u64 = 64;

/// How many workers there are where it isn't known how many processors there are.
const WORKERS: usize = 8;

/// How many readers a hall takes: one for each worker, of whom two share a processor since some wait for the events file, and one of
/// whom is at the door.
pub fn readers_for<R: Threads>(rt: &R) -> usize {
    let workers = match available_parallelism(rt) {
        Ok(processors) => processors.get().saturating_mul(2).clamp(4, 64),
        Err(_) => WORKERS,
    };
    workers + 1
}

/// What each connection may have at most, and whether events of clients are refused.
pub fn limits_of(settings: &Settings) -> RelayLimits
    ensures { result.is_read_only ≡ settings.now.read_only }
{
    RelayLimits::default().read_only(settings.read_only)
}

/// How many connections are served at once.
fn seats_of(settings: &Settings) -> usize {
    let conns = settings.conns.unwrap_or(u64::MAX);
    let clients = settings.clients.unwrap_or(CLIENTS);
    conns.min(clients).clamp(1, 100_000) as usize
}

/// Listens at the first of the address' places that can be had, with room for as many connections that wait as the system allows.
fn listen<R: Net>(rt: &R, alloc: Global, address: &Address) -> Result<TcpListener, Refusal> {
    let text = format!(in alloc; "{address}")?;
    let Ok(places) = text.as_str().to_socket_addrs(rt) else {
        return Err(Refusal::Listen);
    };
    for place in places {
        if let Ok(listener) = TcpListener::bind(rt, place) {
            return Ok(listener);
        }
    }
    Err(Refusal::Listen)
}

/// A door to so many seats, behind which connections wait at the listener, and what wakes who tends it.
fn door_to<R: Net>(
    rt: &R,
    alloc: Global,
    listener: TcpListener,
    seats: usize,
) -> io::Result<(Door, Waker)> {
    let poll = Poll::new(rt)?;
    let waker = Waker::new(poll.registry(), WAKER)?;
    Ok((Door::new(alloc, poll, listener, seats)?, waker))
}

/// The same at one of the address' places, and the port that was bound.
fn door_at<R: Net>(
    rt: &R,
    alloc: Global,
    address: &Address,
    seats: usize,
) -> Result<(Door, Waker, u16), Refusal> {
    let listener = listen(rt, alloc, address)?;
    let Ok(bound) = listener.local_addr() else {
        return Err(Refusal::Listen);
    };
    match door_to(rt, alloc, listener, seats) {
        Ok((door, waker)) => Ok((door, waker, bound.port())),
        Err(_) => Err(Refusal::Listen),
    }
}

/// Tells where the hall listens: the host as it was asked for, and the port that was bound.
fn say_place<W: Write>(
    alloc: Global,
    writer: &mut W,
    address: &Address,
    port: u16,
) -> Result<(), Refusal> {
    let host = address.host.as_str();
    let text = format!(in alloc; "listening {host}:{port}\n")?;
    say(writer, text.as_str())
}

/// Listens as the settings say, and tells where. The hall has the desk, and serves as many connections as the settings say, or
/// without an end. Where they don't say where to listen, that is refused.
pub fn open_hall<J: Naming, K: Drop, R: Net, W: Write>(
    rt: &R,
    alloc: Global,
    settings: &Settings,
    desk: K,
    writer: &mut W,
) -> Result<Hall<Guest<J>, K>, Refusal> {
    let Some(address) = &settings.listen else {
        return Err(Refusal::Key(SettingsKey::Listen));
    };
    let seats = seats_of(settings);
    let (door, waker, port) = door_at(rt, alloc, address, seats)?;
    let conns = settings.conns.unwrap_or(u64::MAX);
    let patience = Patience::of(settings);
    let syncs = settings.fsync == Syncing::Always;
    let hall = Hall::new(alloc, conns, seats, door, waker, patience, syncs, desk)?;
    say_place(alloc, writer, address, port)?;
    Ok(hall)
}

/// Writes what is left to the events file, and tells how many connections and events there were.
fn end<J: Naming, R: Wait + Files, W: Write, E: Write + Drop>(
    rt: &R,
    alloc: Global,
    conns: u64,
    keeping: Keeping<J, E>,
    writer: &mut W,
) -> Result<(), Refusal> {
    let events = keeping.finish(rt)?;
    let text = format!(in alloc; "served {conns}\nevents {events}\n")?;
    say(writer, text.as_str())
}

/// Serves the hall's connections until the last has ended. Events are kept in the file meanwhile.
fn serve_hall<
    J: Naming + Send + Sync,
    D: Wait + Drop + Send,
    R: Net + Threads + Wait + Files<File = File> + Clock + Sync,
    W: Write,
    E: Write + Send + Drop,
>(
    rt: &R,
    alloc: Global,
    settings: &Settings,
    hall: Hall<Guest<J>, Desk<J, D>>,
    readers: Vec<Reader<J>>,
    keeping: Keeping<J, E>,
    writer: &mut W,
) -> Result<(), Refusal> {
    let limits = limits_of(settings);
    serve_beside(rt, alloc, &hall, &keeping, limits, readers, || {
        keep_meanwhile(rt, &hall, &keeping)
    });
    // The store's desk, in the hall, is there until the file is written.
    let conns = settings.conns.unwrap_or(0);
    let done = end(rt, alloc, conns, keeping, writer);
    drop(hall);
    done
}

/// Does the job in a store of this name.
fn run_named<
    J: Naming + Send + Sync,
    D: Wait + Drop + Send,
    R: Net + Threads + Wait + Files<File = File> + Clock + Sync,
    W: Write,
    E: Write + Send + Drop,
>(
    rt: &R,
    keep: D,
    alloc: Global,
    blank: Blank,
    settings: &Settings,
    writer: &mut W,
    mut errors: E,
) -> Result<(), Refusal>
    requires book { blank ≡ J.book }
    requires most { J.most ≡ 1000000 }
{
    // One reader is for the file.
    let count = readers_for(rt).saturating_add(1);
    let (mut desk, mut readers) = open_store::<J, D>(keep, alloc, blank, count)?;
    let Some(mut reader) = readers.pop() else {
        return Err(Refusal::Store);
    };
    let path = settings.events.as_str();
    let file = begin(rt, alloc, &mut desk, &mut reader, path, &mut errors)?;
    let hall = match open_hall(rt, alloc, settings, desk, writer) {
        Ok(hall) => hall,
        Err(refusal) => {
            file.discard(rt);
            return Err(refusal);
        }
    };
    let keeping = keeping_of(alloc, file, reader, errors, settings.fsync)?;
    serve_hall(rt, alloc, settings, hall, readers, keeping, writer)
}

/// Reads settings, puts the events of the file into a store, listens, and serves so many connections as the settings say. Events
/// are kept in the file as they come in. Its faults, and what was torn off it, are told to `errors`.
pub fn run_serve<
    R: Net + Threads + Wait + Files<File = File> + Clock + Sync,
    W: Write,
    E: Write + Send + Drop,
>(rt: &R, alloc: Global, text: &str, writer: &mut W, errors: E) -> Result<(), Refusal> {
    let settings = read_settings(alloc, text, Job::Serve)?;
    run_named::<Brand, &R, R, W, E>(rt, rt, alloc, Blank::new(), &settings, writer, errors)
}
