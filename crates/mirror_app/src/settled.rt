//! The jobs that a file of settings tells.

ghost use Rattle.std.specs.Prelude.{◌≡◌};
ghost use Rattle.mirror_app.specs.Jobs.{settled, levelled};

use crate::jobs::End;
use level_run::run_mirror;
use serve_run::run_serve;
use session_run::Progress;
use std::alloc::Global;
use std::fs::File;
use std::io::{ErrorKind, Write};
use std::net::{Net, TcpListener, TcpStream};
use std::random::RandomSource;
use std::rt::{Clock, Files};
use std::sync::Wait;
use std::thread::Threads;
use std::{fs, io};
use store_run::Refusal;
use sync_run::run_sync_with;

/// What an error of reading the settings comes to.
fn refusal_of(error: &io::Error) -> Refusal {
    match error.kind() {
        ErrorKind::OutOfMemory => Refusal::Memory,
        ErrorKind::InvalidData => Refusal::Settings,
        _ => Refusal::Read,
    }
}

/// How the job ended. `is_short` says whether a relay failed or an id is left, where that is asked.
pub fn ended(done: Result<(), Refusal>, is_short: bool) -> End
    ensures { result ≡ settled done is_short }
{
    match done {
        Ok(()) if is_short => End::Short,
        Ok(()) => End::Done,
        Err(refusal) => End::Stopped(refusal),
    }
}

/// Serves by the settings of the file at a path.
pub fn serve<
    R: Net<Listener = TcpListener, Stream = TcpStream>
        + Threads
        + Wait
        + Files<File = File>
        + Clock
        + AllocGlobal
        + Sync,
    W: Write,
    E: Write + Send + Drop,
>(rt: &R, alloc: Global, path: &str, writer: &mut W, errors: E) -> Result<(), Refusal> {
    match fs::read_to_string(rt, path) {
        Ok(text) => run_serve(rt, alloc, text.as_str(), writer, errors),
        Err(error) => Err(refusal_of(&error)),
    }
}

/// Synchronises by the settings of the file at a path.
pub fn sync<
    R: Net<Listener = TcpListener, Stream = TcpStream>
        + RandomSource
        + Threads
        + Wait
        + Files<File = File>
        + Clock
        + AllocGlobal
        + Sync,
    W: Write,
    P: Write + Send,
    E: Write + Send + Drop,
>(
    rt: &R,
    alloc: Global,
    path: &str,
    writer: &mut W,
    progress: &Progress<P>,
    errors: E,
) -> Result<(), Refusal> {
    match fs::read_to_string(rt, path) {
        Ok(text) => run_sync_with(rt, alloc, text.as_str(), writer, progress, errors),
        Err(error) => Err(refusal_of(&error)),
    }
}

/// Keeps a store level by the settings of the file at a path, and tells whether a relay failed or an id is left in the end.
pub fn mirror<
    R: Net<Listener = TcpListener, Stream = TcpStream>
        + RandomSource
        + Threads
        + Wait
        + Files<File = File>
        + Clock
        + AllocGlobal
        + Sync,
    W: Write,
    P: Write + Send,
    E: Write + Send + Drop,
>(
    rt: &R,
    alloc: Global,
    path: &str,
    writer: &mut W,
    progress: &Progress<P>,
    errors: E,
) -> Result<bool, Refusal> {
    match fs::read_to_string(rt, path) {
        Ok(text) => run_mirror(rt, alloc, text.as_str(), writer, progress, errors),
        Err(error) => Err(refusal_of(&error)),
    }
}

/// How `mirror` ended.
pub fn levelled(done: Result<bool, Refusal>) -> End
    ensures { result ≡ levelled done }
{
    match done {
        Ok(is_short) => ended(Ok(()), is_short),
        Err(refusal) => ended(Err(refusal), false),
    }
}
