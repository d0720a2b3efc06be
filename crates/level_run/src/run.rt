//! The job `mirror`.

ghost use Rattle.std.specs.Prelude.{◌≡◌, None, IfOk};
ghost use Rattle.std.specs.Thread.{IsSend};
ghost use Rattle.pass_run.specs.Passes.{TellsPasses};

use event_file::EventsFile;
use event_store::{Blank, Desk, Naming, Reader, open_store};
use mirror_settings::{Job, Settings, SettingsKey, read_settings, unknown_keys};
use pass_run::run_live;
use serve_run::{
    Guest, Hall, keep_in_hall, keep_meanwhile, limits_of, open_hall, readers_for, serve_beside,
};
use session_run::{Host, Progress};
use std::alloc::Global;
use std::fs::File;
use std::io::Write;
use std::marker::Brand;
use std::mem::ManuallyDrop;
use std::rt::Files;
use std::sync::{Mutex, Wait};
use std::thread::Threads;
use store_run::{Keeping, Refusal, begin, keeping_of};

/// Does the job over a store that isn't served. The desk is there until all is written.
fn run_alone<
    J: Naming + Send + Sync,
    D: Wait + Drop + Send + Sync,
    R: Host + Files,
    W: Write,
    P: Write + Send,
    E: Write + Send + Drop,
>(
    rt: &R,
    alloc: Global,
    settings: &Settings,
    desk: Desk<J, D>,
    reader: &mut Reader<J>,
    keeping: Keeping<J, E>,
    writer: &mut W,
    progress: &Progress<P>,
) -> Result<bool, Refusal>
    ensures { IfOk result (TellsPasses settings.now (W.contents writer.old) (W.contents writer.new)) }
{
    // What the store holds is left to the system.
    let desk = ManuallyDrop::new(Mutex::new(desk));
    let ran = run_live(
        rt, alloc, settings, reader, &desk, &keeping, writer, progress,
    );
    let finished = keeping.finish(rt);
    let is_short = ran?;
    progress.tell_kept(rt, finished?);
    Ok(is_short)
}

/// Makes passes over the store that the hall serves.
fn run_over<
    J: Naming + Send + Sync,
    D: Wait + Drop + Send + Sync,
    R: Host,
    W: Write,
    P: Write + Send,
    E: Write + Send + Drop,
>(
    rt: &R,
    alloc: Global,
    settings: &Settings,
    desk: &Mutex<Desk<J, D>>,
    reader: &mut Reader<J>,
    keeping: &Keeping<J, E>,
    writer: &mut W,
    progress: &Progress<P>,
) -> Result<bool, Refusal> {
    run_live(rt, alloc, settings, reader, desk, keeping, writer, progress)
}

/// Does the job over the store that the hall serves, and goes on until serving is over. Where passes come to an end, the hall takes
/// no further connections; without relays there are none, and it serves on.
fn run_in_hall<
    J: Naming + Send + Sync,
    D: Wait + Drop + Send + Sync,
    R: Host,
    W: Write,
    P: Write + Send,
    E: Write + Send + Drop,
>(
    rt: &R,
    alloc: Global,
    settings: &Settings,
    hall: &Hall<Guest<J>, Desk<J, D>>,
    reader: &mut Reader<J>,
    keeping: &Keeping<J, E>,
    writer: &mut W,
    progress: &Progress<P>,
) -> Result<bool, Refusal> {
    if settings.relays.as_slice().is_empty() {
        keep_meanwhile(rt, hall, keeping);
        return Ok(false);
    }
    let ran = keep_in_hall(
        rt,
        hall,
        keeping,
        ||
            requires { IsSend J.row × IsSend D.row × IsSend P.row }
        {
            run_over(
                rt,
                alloc,
                settings,
                hall.desk(),
                reader,
                keeping,
                writer,
                progress,
            )
        },
    );
    hall.close();
    keep_meanwhile(rt, hall, keeping);
    ran
}

/// Listens, does the job and serves connections meanwhile, until the last has ended. Events are kept in the file as they come in,
/// also where the job is refused. The desk is there until all is written.
fn run_serving<
    J: Naming + Send + Sync,
    D: Wait + Drop + Send + Sync,
    R: Host + Files<File = File>,
    W: Write,
    P: Write + Send,
    E: Write + Send + Drop,
>(
    rt: &R,
    alloc: Global,
    settings: &Settings,
    hall: Hall<Guest<J>, Desk<J, D>>,
    readers: Vec<Reader<J>>,
    reader: &mut Reader<J>,
    keeping: Keeping<J, E>,
    writer: &mut W,
    progress: &Progress<P>,
) -> Result<bool, Refusal> {
    let ran = serve_beside(
        rt,
        alloc,
        &hall,
        &keeping,
        limits_of(settings),
        readers,
        ||
            requires { IsSend J.row × IsSend D.row × IsSend P.row × IsSend E.row }
        {
            run_in_hall(
                rt, alloc, settings, &hall, reader, &keeping, writer, progress,
            )
        },
    );
    let finished = keeping.finish(rt);
    drop(hall);
    let is_short = ran?;
    progress.tell_kept(rt, finished?);
    Ok(is_short)
}

/// How many readers the job takes: one of its own, one for the file, and those of the hall where it listens.
fn readers_of<R: Threads>(rt: &R, settings: &Settings) -> usize {
    match &settings.listen {
        Some(_) => readers_for(rt).saturating_add(2),
        None => 2,
    }
}

/// Listens, and does the job in the store that the hall serves. Where it can't listen, the file stays as it is.
fn run_listening<
    J: Naming + Send + Sync,
    D: Wait + Drop + Send + Sync,
    R: Host + Files<File = File>,
    W: Write,
    P: Write + Send,
    E: Write + Send + Drop,
>(
    rt: &R,
    alloc: Global,
    settings: &Settings,
    desk: Desk<J, D>,
    readers: Vec<Reader<J>>,
    reader: &mut Reader<J>,
    file: EventsFile,
    of_file: Reader<J>,
    writer: &mut W,
    progress: &Progress<P>,
    errors: E,
) -> Result<bool, Refusal> {
    let hall = match open_hall(rt, alloc, settings, desk, writer) {
        Ok(hall) => hall,
        Err(refusal) => {
            file.discard(rt);
            return Err(refusal);
        }
    };
    let keeping = keeping_of(alloc, file, of_file, errors, settings.fsync)?;
    run_serving(
        rt, alloc, settings, hall, readers, reader, keeping, writer, progress,
    )
}

/// Does the job in a store of this name.
fn run_named<
    J: Naming + Send + Sync,
    D: Wait + Drop + Send + Sync,
    R: Host + Files<File = File>,
    W: Write,
    P: Write + Send,
    E: Write + Send + Drop,
>(
    rt: &R,
    keep: D,
    alloc: Global,
    blank: Blank,
    settings: &Settings,
    writer: &mut W,
    progress: &Progress<P>,
    mut errors: E,
) -> Result<bool, Refusal>
    requires book { blank ≡ J.book }
    requires most { J.most ≡ 1000000 }
    ensures { settings.now.listen ≡ None → IfOk result (TellsPasses settings.now (W.contents writer.old) (W.contents writer.new)) }
{
    if settings.listen.is_none() && settings.relays.as_slice().is_empty() {
        return Err(Refusal::Key(SettingsKey::Relays));
    }
    let (mut desk, mut readers) = open_store::<J, D>(keep, alloc, blank, readers_of(rt, settings))?;
    let (Some(mut reader), Some(mut of_file)) = (readers.pop(), readers.pop()) else {
        return Err(Refusal::Store);
    };
    let path = settings.events.as_str();
    let file = begin(rt, alloc, &mut desk, &mut of_file, path, &mut errors)?;
    progress.tell_loaded(rt, of_file.front().len());
    if settings.listen.is_none() {
        let keeping = keeping_of(alloc, file, of_file, errors, settings.fsync)?;
        return run_alone(
            rt,
            alloc,
            settings,
            desk,
            &mut reader,
            keeping,
            writer,
            progress,
        );
    }
    run_listening(
        rt,
        alloc,
        settings,
        desk,
        readers,
        &mut reader,
        file,
        of_file,
        writer,
        progress,
        errors,
    )
}

/// Tells which settings are unknown, a line each.
fn tell_unknown<E: Write>(alloc: Global, text: &str, errors: &mut E) -> Result<(), Refusal> {
    for name in unknown_keys(alloc, text)? {
        let name = name.as_str();
        let _ = errors.writeln(format_args!("unknown setting {name}"));
    }
    let _ = errors.flush();
    Ok(())
}

/// Reads settings, puts the events of the file into a store, and keeps it level with its relays, in passes over slices of time from
/// the newest to the oldest, each of which is told. Events are kept in the file as they come in. Where the settings say where to
/// listen, it serves connections meanwhile. It ends behind as many passes as the settings say, and tells whether the last one left
/// something or a relay isn't level. How far it is goes to `progress`; settings that are unknown, the file's faults, and what was
/// torn off it, go to `errors`.
pub fn run_mirror<R: Host + Files<File = File>, W: Write, P: Write + Send, E: Write + Send + Drop>(
    rt: &R,
    alloc: Global,
    text: &str,
    writer: &mut W,
    progress: &Progress<P>,
    mut errors: E,
) -> Result<bool, Refusal> {
    let settings = read_settings(alloc, text, Job::Mirror)?;
    tell_unknown(alloc, text, &mut errors)?;
    run_named::<Brand, &R, R, W, P, E>(
        rt,
        rt,
        alloc,
        Blank::new(),
        &settings,
        writer,
        progress,
        errors,
    )
}
