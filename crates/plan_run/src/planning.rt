//! The job `plan`.

ghost use Rattle.std.specs.Prelude.{◌≡◌, ◌≢◌, ◌≤◌, length, IfOk, IfErr, OnOk, IfSome};
ghost use Rattle.std.specs.Io.KnownBytes.{Keeps};
ghost use Rattle.plan_run.specs.Fronts.{IsPlannedText};
ghost use Rattle.plan_run.specs.Jobs.{IsPlanWritten, IsUnplanned, IsPlanRefusal};

use crate::offers::read_front;
use crate::printing::write_plan;
use crate::texts::text_of;
use fetch_plan::{Plan, plan_offers};
use mirror_run::{LineFault, Refusal, read_all};
use plan_check::{PlanFault, scan_plan};
use sharing::MOST_IDS;
use std::alloc::{AllocError, Global};
use std::io::{Read, Write};

/// Where the lines of a plan text's offers end, and a least plan of them. None where the bytes are no plan text, or
/// have more offers than a table takes.
fn made_of(alloc: Global, text: &[u8]) -> Result<Option<(usize, Plan)>, AllocError>
    ensures { IfOk result (λ o. IfSome o (λ r. IsPlannedText text.now r.0 r.1)) }
{
    let Some(front) = read_front(alloc, text)? else {
        return Ok(None);
    };
    if front.offers.len() > MOST_IDS {
        return Ok(None);
    }
    let made = plan_offers(alloc, &front.offers, &front.bases)?;
    Ok(Some((front.end, made)))
}

/// Why nothing was planned of a text. Takes no memory.
fn refusal_of(text: &str) -> Refusal
    ensures { IsUnplanned text.now result }
{
    match scan_plan(text) {
        Ok(count) if count > MOST_IDS => Refusal::TableFull,
        Ok(_) => Refusal::Memory,
        Err(PlanFault::Line(n)) => Refusal::Line(n, LineFault::Form),
        Err(PlanFault::Order(n)) => Refusal::Line(n, LineFault::Order),
        Err(_) => unreachable!(),
    }
}

/// Where the lines of a plan text's bases and offers end, and a least plan of them.
///
/// # Errors
///
/// `Line`, `TableFull` (more than 200,000 offers) and `Memory`, which is told only of a plan text with no more offers.
pub fn plan_of(alloc: Global, text: &str) -> Result<(usize, Plan), Refusal>
    ensures ok { IfOk result (λ r. IsPlannedText text.now r.0 r.1) }
    ensures err { IfErr result (IsUnplanned text.now) }
{
    match made_of(alloc, text.as_bytes()) {
        Ok(Some(made)) => Ok(made),
        _ => Err(refusal_of(text)),
    }
}

/// The same as [`plan_of`] of an input.
fn plan_of_input(alloc: Global, bytes: &[u8]) -> Result<(usize, Plan), Refusal>
    requires { length bytes.now ≤ 67108864 }
    ensures ok { IfOk result (λ r. IsPlannedText bytes.now r.0 r.1) }
    ensures err { IfErr result (IsPlanRefusal bytes.now) }
{
    match made_of(alloc, bytes) {
        Ok(Some(made)) => Ok(made),
        _ => Err(refusal_of(text_of(bytes)?)),
    }
}

/// Reads a plan text, and writes the plan text of the same bases and offers with a least sharing of them. The lines of
/// the bases and the offers are written as they stand.
///
/// # Errors
///
/// `Read`, `InputTooLong`, `NotUtf8`, `Line`, `TableFull` (more than 200,000 offers), `Write` and `Memory`;
/// docs/FORMATS.md has their causes. Only after `Write` may something have been written.
pub fn run_plan<R: Read, W: Write>(
    alloc: Global,
    reader: &mut R,
    writer: &mut W,
) -> Result<(), Refusal>
    ensures ok { OnOk result (IfSome (R.remaining reader.old) (λ input.
        IsPlanWritten input (W.contents writer.old) (W.contents writer.new))) }
    ensures err { IfErr result (λ e. IfSome (R.remaining reader.old) (λ input. IsPlanRefusal input e)) }
    ensures unwritten { IfErr result (λ e. e ≢ Refusal.Write → Keeps (W.contents writer.old) (W.contents writer.new)) }
{
    let bytes = read_all(alloc, reader)?;
    let (end, made) = plan_of_input(alloc, &bytes)?;
    write_plan(alloc, writer, &bytes[..end], &made)
}
