//! The job `sync`.

ghost use Rattle.std.specs.Prelude.{◌≡◌, ◌++◌, ℕ, List, None, IfOk, OnOk};
ghost use Rattle.std.specs.Io.KnownBytes.{Appends};
ghost use Rattle.std.specs.Thread.{IsSend};
ghost use Rattle.session_run.specs.Lines.{ends_text, plan_text, counts_text};
ghost use Rattle.session_run.specs.Rounds.{BeginAt};
ghost use Rattle.session_run.specs.Synced.{IsSynced};
ghost use Rattle.sync_run.specs.Printed.{IsSyncDone, PrintsOver, PrintsOfSome};

use event_file::EventsFile;
use event_store::{Blank, Desk, Naming, Reader, open_store};
use mirror_core::{SyncFault, Synced};
use mirror_settings::{Job, Settings, SettingsKey, read_settings};
use offer_table::RelaySet;
use serve_run::{
    Guest, Hall, keep_in_hall, keep_meanwhile, limits_of, open_hall, readers_for, serve_beside,
};
use session_run::{
    Compared, Counts, Host, Nowhere, Progress, compare, fetch_rounds, put_counts, put_ends,
    put_plan,
};
use std::alloc::Global;
use std::fs::File;
use std::io::Write;
use std::marker::Brand;
use std::mem::ManuallyDrop;
use std::rt::Files;
use std::sync::{Mutex, Wait};
use std::thread::Threads;
use store_run::{Keeping, Refusal, begin, keeping_of, say};

/// What a fault of the sessions comes to.
fn refusal_of(fault: SyncFault) -> Refusal {
    match fault {
        // The settings name 1 to 256 relays.
        SyncFault::NoRelay | SyncFault::TooMany => Refusal::Key(SettingsKey::Relays),
        SyncFault::TableFull => Refusal::TableFull,
        SyncFault::Memory => Refusal::Memory,
    }
}

/// Sessions with the relays over the events that the filter matches, and the plan made of what they found.
fn synced<J: Naming, R: Host, P: Write + Send>(
    rt: &R,
    alloc: Global,
    settings: &Settings,
    reader: &mut Reader<J>,
    progress: &Progress<P>,
) -> Result<Synced, Refusal>
    ensures { IfOk result (λ done. (bases : List ℕ) × BeginAt settings.now.bases bases × IsSynced settings.now bases reader.new done.ends.items done.table done.plan) }
{
    let all = RelaySet::empty();
    let Compared { done, .. } = compare(
        rt,
        alloc,
        settings,
        &settings.filter,
        all,
        reader,
        progress,
    )?;
    match done {
        Ok(done) => Ok(done),
        Err(fault) => Err(refusal_of(fault)),
    }
}

/// Prints how the sessions ended, and the plan.
fn say_synced<W: Write>(alloc: Global, writer: &mut W, done: &Synced) -> Result<(), Refusal>
    ensures { OnOk result (Appends (W.contents writer.old) (W.contents writer.new) (ends_text done.now.ends.items ++ plan_text done.now.plan)) }
{
    let mut text = String::new(alloc);
    put_ends(alloc, &mut text, done.ends.as_slice())?;
    put_plan(alloc, &mut text, &done.plan)?;
    say(writer, text.as_str())
}

/// Prints what became of the ids.
fn say_counts<W: Write>(alloc: Global, writer: &mut W, counts: &Counts) -> Result<(), Refusal>
    ensures { OnOk result (Appends (W.contents writer.old) (W.contents writer.new) (counts_text counts.now)) }
{
    let mut text = String::new(alloc);
    put_counts(alloc, &mut text, counts)?;
    say(writer, text.as_str())
}

/// Runs the sessions, prints how they ended and the plan, and fetches by it.
fn run_all<
    J: Naming + Send + Sync,
    D: Wait + Drop + Send + Sync,
    R: Host,
    W: Write,
    P: Write + Send,
    E: Write + Send + Drop,
>(
    rt: &R,
    alloc: Global,
    settings: &Settings,
    reader: &mut Reader<J>,
    desk: &Mutex<Desk<J, D>>,
    keeping: &Keeping<J, E>,
    writer: &mut W,
    progress: &Progress<P>,
) -> Result<(), Refusal>
    ensures { OnOk result (PrintsOver BeginAt settings.now reader.new (W.contents writer.old) (W.contents writer.new)) }
{
    let done = synced(rt, alloc, settings, reader, progress)?;
    say_synced(alloc, writer, &done)?;
    let counts = fetch_rounds(rt, alloc, settings, done, desk, keeping, writer, progress)?;
    progress.note_left(rt, &counts);
    say_counts(alloc, writer, &counts)
}

/// Does the job over a store that isn't served. What relays give is kept in the file meanwhile, also where the job is refused in the
/// end. The desk is there until all is written.
fn run_alone<
    J: Naming + Send + Sync,
    D: Wait + Drop + Send + Sync,
    R: Host + Files,
    W: Write,
    P: Write + Send,
    E: Write + Send + Drop,
>(
    rt: &R,
    alloc: Global,
    settings: &Settings,
    desk: Desk<J, D>,
    reader: &mut Reader<J>,
    keeping: Keeping<J, E>,
    writer: &mut W,
    progress: &Progress<P>,
) -> Result<(), Refusal>
    ensures { OnOk result (PrintsOfSome BeginAt settings.now (W.contents writer.old) (W.contents writer.new)) }
{
    // What the store holds is left to the system. To give it back event by event took a tenth of the job's time.
    let desk = ManuallyDrop::new(Mutex::new(desk));
    let ran = run_all(
        rt, alloc, settings, reader, &desk, &keeping, writer, progress,
    );
    let finished = keeping.finish(rt);
    ran?;
    progress.tell_kept(rt, finished?);
    Ok(())
}

/// Does the job over the store that the hall serves, and goes on until serving is over. Where it is refused, the hall takes no
/// further connections.
fn run_in_hall<
    J: Naming + Send + Sync,
    D: Wait + Drop + Send + Sync,
    R: Host,
    W: Write,
    P: Write + Send,
    E: Write + Send + Drop,
>(
    rt: &R,
    alloc: Global,
    settings: &Settings,
    hall: &Hall<Guest<J>, Desk<J, D>>,
    reader: &mut Reader<J>,
    keeping: &Keeping<J, E>,
    writer: &mut W,
    progress: &Progress<P>,
) -> Result<(), Refusal> {
    let ran = keep_in_hall(
        rt,
        hall,
        keeping,
        ||
            requires { IsSend J.row × IsSend D.row × IsSend P.row }
        {
            run_all(
                rt,
                alloc,
                settings,
                reader,
                hall.desk(),
                keeping,
                writer,
                progress,
            )
        },
    );
    if ran.is_err() {
        hall.close();
    }
    keep_meanwhile(rt, hall, keeping);
    ran
}

/// Listens, does the job and serves connections meanwhile, until the last has ended. Events are kept in the file as they come in,
/// also where the job is refused. The desk is there until all is written.
fn run_serving<
    J: Naming + Send + Sync,
    D: Wait + Drop + Send + Sync,
    R: Host + Files<File = File>,
    W: Write,
    P: Write + Send,
    E: Write + Send + Drop,
>(
    rt: &R,
    alloc: Global,
    settings: &Settings,
    hall: Hall<Guest<J>, Desk<J, D>>,
    readers: Vec<Reader<J>>,
    reader: &mut Reader<J>,
    keeping: Keeping<J, E>,
    writer: &mut W,
    progress: &Progress<P>,
) -> Result<(), Refusal> {
    let ran = serve_beside(
        rt,
        alloc,
        &hall,
        &keeping,
        limits_of(settings),
        readers,
        ||
            requires { IsSend J.row × IsSend D.row × IsSend P.row × IsSend E.row }
        {
            run_in_hall(
                rt, alloc, settings, &hall, reader, &keeping, writer, progress,
            )
        },
    );
    let finished = keeping.finish(rt);
    drop(hall);
    ran?;
    progress.tell_kept(rt, finished?);
    Ok(())
}

/// How many readers the job takes: one of its own, one for the file, and those of the hall where it listens.
fn readers_of<R: Threads>(rt: &R, settings: &Settings) -> usize {
    match &settings.listen {
        Some(_) => readers_for(rt).saturating_add(2),
        None => 2,
    }
}

/// Listens, and does the job in the store that the hall serves. Where it can't listen, the file stays as it is.
fn run_listening<
    J: Naming + Send + Sync,
    D: Wait + Drop + Send + Sync,
    R: Host + Files<File = File>,
    W: Write,
    P: Write + Send,
    E: Write + Send + Drop,
>(
    rt: &R,
    alloc: Global,
    settings: &Settings,
    desk: Desk<J, D>,
    readers: Vec<Reader<J>>,
    reader: &mut Reader<J>,
    file: EventsFile,
    of_file: Reader<J>,
    writer: &mut W,
    progress: &Progress<P>,
    errors: E,
) -> Result<(), Refusal> {
    let hall = match open_hall(rt, alloc, settings, desk, writer) {
        Ok(hall) => hall,
        Err(refusal) => {
            file.discard(rt);
            return Err(refusal);
        }
    };
    let keeping = keeping_of(alloc, file, of_file, errors, settings.fsync)?;
    run_serving(
        rt, alloc, settings, hall, readers, reader, keeping, writer, progress,
    )
}

/// Does the job in a store of this name.
fn run_named<
    J: Naming + Send + Sync,
    D: Wait + Drop + Send + Sync,
    R: Host + Files<File = File>,
    W: Write,
    P: Write + Send,
    E: Write + Send + Drop,
>(
    rt: &R,
    keep: D,
    alloc: Global,
    blank: Blank,
    settings: &Settings,
    writer: &mut W,
    progress: &Progress<P>,
    mut errors: E,
) -> Result<(), Refusal>
    requires book { blank ≡ J.book }
    requires most { J.most ≡ 1000000 }
    ensures { settings.now.listen ≡ None → OnOk result (PrintsOfSome BeginAt settings.now (W.contents writer.old) (W.contents writer.new)) }
{
    let (mut desk, mut readers) = open_store::<J, D>(keep, alloc, blank, readers_of(rt, settings))?;
    let (Some(mut reader), Some(mut of_file)) = (readers.pop(), readers.pop()) else {
        return Err(Refusal::Store);
    };
    let path = settings.events.as_str();
    let file = begin(rt, alloc, &mut desk, &mut of_file, path, &mut errors)?;
    progress.tell_loaded(rt, of_file.front().len());
    if settings.listen.is_none() {
        let keeping = keeping_of(alloc, file, of_file, errors, settings.fsync)?;
        return run_alone(
            rt,
            alloc,
            settings,
            desk,
            &mut reader,
            keeping,
            writer,
            progress,
        );
    }
    run_listening(
        rt,
        alloc,
        settings,
        desk,
        readers,
        &mut reader,
        file,
        of_file,
        writer,
        progress,
        errors,
    )
}

/// Reads settings, puts the events of the file into a store, has sessions with the relays, prints how they ended and the plan
/// made of what they found, and fetches by it. Events are kept in the file as they come in. Where the settings say where to listen,
/// it listens before the sessions, serves connections meanwhile, and goes on to the end of the last.
pub fn run_sync<R: Host + Files<File = File>, W: Write>(
    rt: &R,
    alloc: Global,
    text: &str,
    writer: &mut W,
) -> Result<(), Refusal>
    ensures { OnOk result (IsSyncDone text.now (W.contents writer.old) (W.contents writer.new)) }
{
    let progress: Progress<Nowhere> = Progress::none();
    run_sync_with(rt, alloc, text, writer, &progress, Nowhere)
}

/// The same as [`run_sync`]. How far it is goes to `progress`, whatever becomes of it there; the file's faults, and what was torn
/// off it, go to `errors`.
pub fn run_sync_with<
    R: Host + Files<File = File>,
    W: Write,
    P: Write + Send,
    E: Write + Send + Drop,
>(
    rt: &R,
    alloc: Global,
    text: &str,
    writer: &mut W,
    progress: &Progress<P>,
    errors: E,
) -> Result<(), Refusal>
    ensures { OnOk result (IsSyncDone text.now (W.contents writer.old) (W.contents writer.new)) }
{
    let settings = read_settings(alloc, text, Job::Sync)?;
    run_named::<Brand, &R, R, W, P, E>(
        rt,
        rt,
        alloc,
        Blank::new(),
        &settings,
        writer,
        progress,
        errors,
    )
}
