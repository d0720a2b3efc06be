//! What is told where the words name no job.

ghost use Rattle.std.specs.Prelude.{◌≢◌};
ghost use Rattle.clap.specs.Words.{kind_of};
ghost use Rattle.mirror_words.specs.CommandLine.{IsUsage};

use crate::words::{command, recon};
use clap::error::ErrorKind;
use clap::{Command, Error};
use std::alloc::{AllocError, Global};
use std::env::Env;
use std::{env, io};

/// Why the words name no job.
#[derive(Drop)]
pub enum WordsFault {
    /// The words are wrong, or ask for help or the version: `clap`'s text.
    Usage(String),
    /// No memory was found.
    Memory,
}

impl From<AllocError> for WordsFault {
    ghost use Rattle.std.specs.Prelude.{◌≡◌};
    ghost use Rattle.mirror_words.specs.declared.usage.WordsFault.TheVariants.{Memory};

    ghost from_gives = { λ _ e. e ≡ Memory };

    fn from(_e: AllocError) -> WordsFault {
        WordsFault::Memory
    }
}

/// How a command is used.
fn usage_of(mut command: Command<'_>) -> Result<String, AllocError> {
    command.render_usage()
}

/// How `recon` is used, where clap's text of a fault of that kind doesn't say it.
fn usage_after(alloc: Global, kind: ErrorKind) -> Result<String, AllocError> {
    match kind {
        ErrorKind::InvalidValue | ErrorKind::ValueValidation => {
            let usage = usage_of(recon(alloc)?.bin_name("nostr-mirror recon")?)?;
            format!(in alloc; "\n{usage}\n")
        }
        _ => Ok(String::new(alloc)),
    }
}

/// The text of an error, and how the program is used, unless the error is want of memory.
pub fn fault_of(alloc: Global, error: Error) -> WordsFault
    ensures { IsUsage result → kind_of error ≢ ErrorKind.OutOfMemory }
{
    let kind = error.kind();
    if matches!(kind, ErrorKind::OutOfMemory) {
        return WordsFault::Memory;
    }
    match usage_after(alloc, kind) {
        Ok(usage) => match format!(in alloc; "{error}{usage}") {
            Ok(text) => WordsFault::Usage(text),
            Err(AllocError) => WordsFault::Memory,
        },
        Err(AllocError) => WordsFault::Memory,
    }
}

/// A fault of the words of a command, in the words of the Rust crate `clap` for one that isn't UTF-8.
fn fault_in(mut command: Command<'_>) -> Result<Error, AllocError> {
    command.error(
        ErrorKind::Format,
        "invalid UTF-8 was detected in one or more arguments",
    )
}

/// What is told where a word isn't UTF-8.
fn not_utf8(alloc: Global) -> Result<WordsFault, AllocError> {
    let error = fault_in(command(alloc)?)?;
    Ok(fault_of(alloc, error))
}

/// The words that the program was given, its name first.
pub fn words_of<E: Env>(alloc: Global, env: &E) -> Result<Vec<String>, WordsFault> {
    match env::args(&(env, alloc)) {
        Ok(words) => Ok(words.collect(alloc)?),
        Err(error) if error.kind() == io::ErrorKind::InvalidData => Err(not_utf8(alloc)?),
        Err(_) => Err(WordsFault::Memory),
    }
}
