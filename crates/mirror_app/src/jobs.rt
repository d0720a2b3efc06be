//! The jobs, and how the program ends.

ghost use Rattle.std.specs.Prelude.{◌≡◌, map, string_bytes};
ghost use Rattle.std.specs.Io.KnownBytes.{Keeps};
ghost use Rattle.mirror_app.specs.Jobs.{RunsAs, MayHaveWritten, ending, status_of};

use mirror_run::{Refusal, run_recon};
use mirror_words::{Words, WordsFault, read_words};
use plan_run::{run_check, run_plan};
use std::alloc::Global;
use std::fmt;
use std::io::{Read, Write};
use store_run::Refusal as ServiceRefusal;

/// How the program ends. Its text goes to standard error.
#[derive(Drop)]
pub enum End {
    /// The job was done.
    Done,
    /// The job wasn't done.
    Refused(Refusal),
    /// The words name no job: what is told then.
    Usage(String),
    /// `serve`, `sync` or `mirror` wasn't done.
    Stopped(ServiceRefusal),
    /// `sync` or `mirror` was done, and a relay failed or an id is left, where that is asked.
    Short,
}

impl End {
    /// The exit status.
    pub fn status(&self) -> u8
        ensures { result ≡ status_of self.now }
    {
        match self {
            End::Done => 0,
            End::Refused(_) => 1,
            End::Usage(_) => 2,
            End::Stopped(_) => 1,
            End::Short => 3,
        }
    }
}

impl fmt::Display for End {
    ghost use Rattle.std.specs.Prelude.{Some};
    ghost use Rattle.mirror_app.specs.Jobs.{end_text};

    ghost output = { λ e. Some (end_text e) };

    fn fmt<W: fmt::Write>(&self, f: &mut fmt::Formatter<W>) -> fmt::Result {
        match self {
            End::Done => Ok(()),
            End::Refused(refusal) => write!(f, "refused: {refusal}\n"),
            End::Usage(text) => write!(f, "{text}"),
            End::Stopped(refusal) => write!(f, "refused: {refusal}\n"),
            End::Short => Ok(()),
        }
    }
}

impl From<WordsFault> for End {
    ghost use Rattle.std.specs.Prelude.{◌≡◌};
    ghost use Rattle.mirror_app.specs.Jobs.{end_of};

    ghost from_gives = { λ fault e. e ≡ end_of fault };

    fn from(fault: WordsFault) -> End {
        match fault {
            WordsFault::Usage(text) => End::Usage(text),
            WordsFault::Memory => End::Refused(Refusal::Memory),
        }
    }
}

/// What a run of the program comes to.
#[derive(Drop)]
pub enum Went {
    /// It has ended.
    Ended(End),
    /// What is left to do isn't done on standard input: `serve`, `sync` or `mirror`.
    Left(Words),
}

/// How a job ended.
fn ended(done: Result<(), Refusal>) -> End
    ensures { result ≡ ending done }
{
    match done {
        Ok(()) => End::Done,
        Err(refusal) => End::Refused(refusal),
    }
}

/// Does the job that the words name, the program's name first, unless it is left to do.
pub fn run<R: Read, W: Write>(
    alloc: Global,
    words: &[String],
    reader: &mut R,
    writer: &mut W,
) -> Went
    ensures ends { RunsAs (map string_bytes words.now) (R.remaining reader.old) (W.contents writer.old) (W.contents writer.new) result }
    ensures unwritten { ¬ MayHaveWritten result → Keeps (W.contents writer.old) (W.contents writer.new) }
{
    let job = match read_words(alloc, words) {
        Ok(job) => job,
        Err(fault) => return Went::Ended(End::from(fault)),
    };
    match job {
        Words::Recon(limit) => Went::Ended(ended(run_recon(alloc, reader, writer, limit))),
        Words::Plan => Went::Ended(ended(run_plan(alloc, reader, writer))),
        Words::Check => Went::Ended(ended(run_check(alloc, reader, writer))),
        Words::Serve(path) => Went::Left(Words::Serve(path)),
        Words::Sync(path, progress, strict) => Went::Left(Words::Sync(path, progress, strict)),
        Words::Mirror(path, progress) => Went::Left(Words::Mirror(path, progress)),
    }
}
