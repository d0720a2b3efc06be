//! The job `check`.

ghost use Rattle.std.specs.Prelude.{◌≡◌, ◌≢◌, ◌≤◌, length, IfOk, IfErr, OnOk, IfSome, string_bytes};
ghost use Rattle.std.specs.Io.KnownBytes.{Keeps};
ghost use Rattle.sharing.specs.Bases.{base_in};
ghost use Rattle.sharing.specs.Sharing.{NoneSmaller};
ghost use Rattle.plan_run.specs.Planned.{Passes, IsRefusedAs};
ghost use Rattle.plan_run.specs.Jobs.{ChecksAs, IsLeastWritten, IsUnchecked, IsCheckRefusal, least_text};

use crate::texts::text_of;
use crate::writing::write_text;
use mirror_run::{LineFault, Refusal, read_all};
use plan_check::{PlanFault, PlanFile, check, parse_plan};
use std::alloc::{AllocError, Global};
use std::io::{Read, Write};

/// The busiest load of a file's gives, where they are a sharing that the group shows to be least; else the
/// number of what is wrong.
fn load_of(file: &PlanFile) -> Result<u64, u8>
    ensures ok { IfOk result (Passes file.now) }
    ensures least { IfOk result (NoneSmaller (base_in file.now.bases) file.now.offers) }
    ensures err { IfErr result (IsRefusedAs file.now) }
{
    match check(file) {
        Ok(most) => Ok(most),
        Err(PlanFault::NotOffered) => Err(3),
        Err(PlanFault::Missing) => Err(4),
        Err(PlanFault::Stranger) => Err(5),
        Err(PlanFault::GroupTooSmall) => Err(6),
        Err(_) => unreachable!(),
    }
}

/// The same as [`least_of`] of bytes, UTF-8 or not.
fn least_in(alloc: Global, text: &[u8]) -> Result<u64, Refusal>
    ensures ok { IfOk result (ChecksAs text.now) }
    ensures err { IfErr result (IsUnchecked text.now) }
{
    let file = match parse_plan(alloc, text) {
        Ok(file) => file,
        Err(PlanFault::Line(n)) => return Err(Refusal::Line(n, LineFault::Form)),
        Err(PlanFault::Order(n)) => return Err(Refusal::Line(n, LineFault::Order)),
        Err(PlanFault::Memory) => return Err(Refusal::Memory),
        Err(_) => unreachable!(),
    };
    match load_of(&file) {
        Ok(most) => Ok(most),
        Err(number) => Err(Refusal::Plan(number)),
    }
}

/// The busiest load of a plan text's gives, where they are a sharing of its offers and its group shows that none has
/// less.
///
/// # Errors
///
/// `Line`, `Plan` (3 to 6) and `Memory`, which is told only of a plan text.
pub fn least_of(alloc: Global, text: &str) -> Result<u64, Refusal>
    ensures ok { IfOk result (ChecksAs text.now) }
    ensures err { IfErr result (IsUnchecked text.now) }
{
    least_in(alloc, text.as_bytes())
}

/// The same as [`least_of`] of an input.
fn least_of_input(alloc: Global, bytes: &[u8]) -> Result<u64, Refusal>
    requires { length bytes.now ≤ 67108864 }
    ensures ok { IfOk result (ChecksAs bytes.now) }
    ensures err { IfErr result (IsCheckRefusal bytes.now) }
{
    match least_in(alloc, bytes) {
        Ok(most) => Ok(most),
        Err(refusal) => {
            text_of(bytes)?;
            Err(refusal)
        }
    }
}

/// The line that tells a load.
fn line_of(alloc: Global, most: u64) -> Result<String, AllocError>
    ensures { IfOk result (λ text. string_bytes text ≡ least_text most) }
{
    format!(in alloc; "least {most}\n")
}

/// Reads a plan text, and writes `least` and its busiest load, where its gives are a sharing of its offers and
/// its group shows that none has less.
///
/// # Errors
///
/// `Read`, `InputTooLong`, `NotUtf8`, `Line`, `Plan` (3 to 6), `Write` and `Memory`; docs/FORMATS.md has their causes.
/// Only after `Write` may something have been written.
pub fn run_check<R: Read, W: Write>(
    alloc: Global,
    reader: &mut R,
    writer: &mut W,
) -> Result<(), Refusal>
    ensures ok { OnOk result (IfSome (R.remaining reader.old) (λ input.
        IsLeastWritten input (W.contents writer.old) (W.contents writer.new))) }
    ensures err { IfErr result (λ e. IfSome (R.remaining reader.old) (λ input. IsCheckRefusal input e)) }
    ensures unwritten { IfErr result (λ e. e ≢ Refusal.Write → Keeps (W.contents writer.old) (W.contents writer.new)) }
{
    let bytes = read_all(alloc, reader)?;
    let most = least_of_input(alloc, &bytes)?;
    let line = line_of(alloc, most)?;
    write_text(writer, line.as_str())
}
