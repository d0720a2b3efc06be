//! `nostr-mirror`: the program.
#![tactic(auto)]

mod jobs;
mod settled;

use jobs::{End, Went, run};
use mirror_words::{Words, words_of};
use session_run::Progress;
use settled::{ended, levelled, mirror, serve, sync};
use std::fs::File;
use std::io;
use std::process::ExitCode;
use std::rt::Files;

/// Takes the numbers of standard streams that are closed: else files that are opened later would get them, and what is meant for
/// a stream. What is written there fails, as it does where the stream is closed.
fn taken<R: Files>(rt: &R) -> [io::Result<R::File>; 3] {
    [
        File::open(rt, "/dev/null"),
        File::open(rt, "/dev/null"),
        File::open(rt, "/dev/null"),
    ]
}

/// Where it is told how far the job is.
fn progress_of<P: Drop>(errors: P, is_wanted: bool) -> Progress<P> {
    if is_wanted {
        Progress::to(errors)
    } else {
        Progress::none()
    }
}

fn main(rt: HostRuntime) -> io::Result<ExitCode> {
    let alloc = rt.alloc();
    let _taken = taken(&rt);
    let went = match words_of(alloc, &rt) {
        Ok(words) => run(alloc, words.as_slice(), &mut rt.stdin(), &mut rt.stdout()),
        Err(fault) => Went::Ended(End::from(fault)),
    };
    let end = match went {
        Went::Ended(end) => end,
        Went::Left(Words::Serve(path)) => {
            let done = serve(&rt, alloc, path.as_str(), &mut rt.stdout(), rt.stderr());
            ended(done, false)
        }
        Went::Left(Words::Sync(path, is_wanted, is_strict)) => {
            let progress = progress_of(rt.stderr(), is_wanted);
            let (out, errors) = (&mut rt.stdout(), rt.stderr());
            let done = sync(&rt, alloc, path.as_str(), out, &progress, errors);
            ended(done, is_strict && progress.fell_short(&rt))
        }
        Went::Left(Words::Mirror(path, is_wanted)) => {
            let progress = progress_of(rt.stderr(), is_wanted);
            let (out, errors) = (&mut rt.stdout(), rt.stderr());
            let done = mirror(&rt, alloc, path.as_str(), out, &progress, errors);
            levelled(done)
        }
        // The other jobs have ended.
        Went::Left(_) => End::Done,
    };
    let _ = eprint!(rt; "{end}");
    Ok(ExitCode::from(end.status()))
}
