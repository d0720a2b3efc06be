//! The events file at the start.

use crate::filling::{End, Found, fill_from, part_of};
use crate::refusal::{Refusal, read_refusal, write_refusal};
use event_file::EventsFile;
use event_store::{Desk, Naming, Reader};
use std::alloc::Global;
use std::fs;
use std::fs::File;
use std::io::{BufReader, ErrorKind, Write};
use std::rt::Files;
use std::sync::Wait;
use std::thread::Threads;

/// So many bytes of the file are read at once.
const READ: usize = 1 << 16;

/// Puts the events of the file at a path into a store. A file that isn't there has none, and pipes and devices, which may have no
/// end, aren't read.
fn fill<J: Naming, D: Wait + Drop, R: Threads + Wait + Sync + Files<File = File>>(
    rt: &R,
    alloc: Global,
    desk: &mut Desk<J, D>,
    reader: &mut Reader<J>,
    path: &str,
) -> Result<(), Refusal> {
    match fs::metadata(rt, path) {
        Ok(found) if !found.is_file() && !found.is_dir() => return Ok(()),
        _ => {}
    }
    let file = match fs::open(rt, path) {
        Ok(file) => file,
        Err(error) if error.kind() == ErrorKind::NotFound => return Ok(()),
        Err(error) => return Err(read_refusal(&error)),
    };
    match BufReader::with_capacity(alloc, READ, file) {
        Ok(lines) => {
            fill_from(rt, alloc, desk, reader, lines, part_of(0))?;
            Ok(())
        }
        Err(error) => Err(read_refusal(&error)),
    }
}

/// Puts the events of the file into a store.
fn found_in<J: Naming, D: Wait + Drop, R: Threads + Wait + Sync>(
    rt: &R,
    alloc: Global,
    desk: &mut Desk<J, D>,
    reader: &mut Reader<J>,
    file: &EventsFile,
) -> Result<Found, Refusal> {
    let size = file.size().unwrap_or(0);
    match file.reading(alloc, READ) {
        Ok(lines) => fill_from(rt, alloc, desk, reader, lines, part_of(size)),
        Err(error) => Err(read_refusal(&error)),
    }
}

/// Sets a torn end aside, and tells of it.
fn set_aside<R: Files<File = File>, E: Write>(
    rt: &R,
    alloc: Global,
    file: &mut EventsFile,
    before: u64,
    torn: &[u8],
    errors: &mut E,
) -> Result<(), Refusal> {
    let count = torn.len();
    match file.set_aside(rt, alloc, before, torn) {
        Ok(()) => {
            let _ = errors.writeln(format_args!("events file: {count} bytes torn, set aside"));
            Ok(())
        }
        Err(error) => Err(write_refusal(&error)),
    }
}

/// Makes a file plain: it has the lines of the store's events then, and nothing else.
fn make_plain<J: Naming, R: Files<File = File>>(
    rt: &R,
    alloc: Global,
    reader: &mut Reader<J>,
    file: &mut EventsFile,
    found: &Found,
) -> Result<(), Refusal> {
    let is_plain = found.is_plain && file.may_grow();
    let made = match &found.end {
        _ if !is_plain => file.renew(rt, alloc, reader.all()?.events()),
        End::Event => file.end_line(),
        _ => Ok(()),
    };
    match made {
        Ok(()) => Ok(()),
        Err(error) => Err(write_refusal(&error)),
    }
}

/// Puts the events of the file into a store, and makes it plain.
fn take_file<J: Naming, D: Wait + Drop, R: Threads + Wait + Sync + Files<File = File>, E: Write>(
    rt: &R,
    alloc: Global,
    desk: &mut Desk<J, D>,
    reader: &mut Reader<J>,
    file: &mut EventsFile,
    errors: &mut E,
) -> Result<(), Refusal> {
    let found = found_in(rt, alloc, desk, reader, file)?;
    if let End::Torn(torn) = &found.end {
        set_aside(rt, alloc, file, found.bytes, torn.as_slice(), errors)?;
    }
    make_plain(rt, alloc, reader, file, &found)
}

/// Opens the events file, and puts its events into a store. It has the lines of these events then, and nothing else. Another run
/// that has it is told first, and a fault of reading before one of writing.
pub fn begin<J: Naming, D: Wait + Drop, R: Threads + Wait + Sync + Files<File = File>, E: Write>(
    rt: &R,
    alloc: Global,
    desk: &mut Desk<J, D>,
    reader: &mut Reader<J>,
    path: &str,
    errors: &mut E,
) -> Result<EventsFile, Refusal> {
    match EventsFile::open(rt, alloc, path) {
        Ok(mut file) => match take_file(rt, alloc, desk, reader, &mut file, errors) {
            Ok(()) => Ok(file),
            Err(refusal) => {
                file.discard(rt);
                Err(refusal)
            }
        },
        Err(error) if error.kind() == ErrorKind::WouldBlock => Err(Refusal::Busy),
        Err(error) => {
            fill(rt, alloc, desk, reader, path)?;
            Err(write_refusal(&error))
        }
    }
}
