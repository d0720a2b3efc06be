//! The job `recon`.

ghost use Rattle.std.specs.Prelude.{◌≡◌, ◌≤◌, ◌≢◌, List, length, IfOk, IfErr, OnOk, IfSome};
ghost use Rattle.std.specs.Io.KnownBytes.{Keeps};
ghost use Rattle.item_key.specs.declared.Item.{Item};
ghost use Rattle.neg_session.specs.Faults.{number_of};
ghost use Rattle.neg_session.specs.declared.fault.SessionFault.TheVariants as session_fault;
ghost use Rattle.mirror_run.specs.Reconciled.{Reconciles, IsSessionRefusal, TellsRolls, IsListsRefusal, IsPrinted, IsReconRefusal};

use crate::input::read_all;
use crate::output::write_recon;
use crate::refusal::Refusal;
use crate::rolls::read_rolls;
use item_roll::Roll;
use neg_session::{
    LocalPeer, Outcome, Peer, SessionFault, SessionLimits, reconcile_with, roll_explains,
};
use std::alloc::Global;
use std::io::{Read, Write};

/// What a session's fault comes to.
fn refusal_of(fault: SessionFault) -> Refusal
    ensures memory { fault ≡ session_fault.Memory → result ≡ Refusal.Memory }
    ensures others { fault ≢ session_fault.Memory → result ≡ Refusal.Session (number_of fault) }
{
    match fault {
        SessionFault::Memory => Refusal::Memory,
        other => Refusal::Session(other.number()),
    }
}

/// A session of one roll with a peer that answers by another.
fn session(
    alloc: Global,
    mine: &Roll,
    theirs: Roll,
    limit: usize,
) -> Result<(LocalPeer, Outcome), Refusal>
    requires { 4096 ≤ limit × limit ≤ 1048576 }
    ensures ok { IfOk result (λ s. Reconciles limit mine.now theirs s.0.log s.1) }
    ensures err { IfErr result (IsSessionRefusal limit mine.now theirs) }
{
    roll_explains();
    let mut peer = LocalPeer::new(alloc, theirs, limit);
    let limits = SessionLimits::most(limit);
    match reconcile_with(alloc, &mut peer, mine, &limits) {
        Ok(outcome) => Ok((peer, outcome)),
        Err(fault) => Err(refusal_of(fault)),
    }
}

/// Runs a session between the two item lists that a text of at most 67,108,864 bytes tells, UTF-8 or not: the peer that answered, with
/// its messages, and what was found. No message has more than `limit` bytes, 4,096 to 1,048,576.
///
/// # Errors
///
/// `Line`, `Session` (3 to 5) and `Memory`; docs/FORMATS.md has their causes.
pub fn reconcile(alloc: Global, text: &[u8], limit: usize) -> Result<(LocalPeer, Outcome), Refusal>
    requires short { length text.now ≤ 67108864 }
    requires limit { 4096 ≤ limit × limit ≤ 1048576 }
    ensures ok { IfOk result (λ s. (mine : List Item) × (theirs : List Item) × TellsRolls text.now mine theirs × Reconciles limit mine theirs s.0.log s.1) }
    ensures err { IfErr result (IsListsRefusal limit text.now) }
{
    let (mine, theirs) = read_rolls(alloc, text)?;
    session(alloc, &mine, theirs, limit)
}

/// Why bytes gave nothing. Lists have no byte but of ASCII, so that only bytes that are refused are looked at for whether
/// they are a text at all, which comes first.
fn refusal_of_input(bytes: &[u8], limit: usize, refusal: Refusal) -> Refusal
    requires short { length bytes.now ≤ 67108864 }
    requires lists { IsListsRefusal limit bytes.now refusal }
    ensures { IsReconRefusal limit bytes.now result }
{
    match str::from_utf8(bytes) {
        Ok(_) => refusal,
        Err(_) => Refusal::NotUtf8,
    }
}

/// The same as `reconcile` of an input.
fn reconcile_input(
    alloc: Global,
    bytes: &[u8],
    limit: usize,
) -> Result<(LocalPeer, Outcome), Refusal>
    requires short { length bytes.now ≤ 67108864 }
    requires limit { 4096 ≤ limit × limit ≤ 1048576 }
    ensures ok { IfOk result (λ s. (mine : List Item) × (theirs : List Item) × TellsRolls bytes.now mine theirs × Reconciles limit mine theirs s.0.log s.1) }
    ensures err { IfErr result (IsReconRefusal limit bytes.now) }
{
    match reconcile(alloc, bytes, limit) {
        Ok(found) => Ok(found),
        Err(refusal) => Err(refusal_of_input(bytes, limit, refusal)),
    }
}

/// Reads two item lists, runs a session between them, and prints its messages and results. No message has more than
/// `limit` bytes, 4,096 to 1,048,576.
///
/// # Errors
///
/// `Read`, `InputTooLong`, `NotUtf8`, `Line`, `Session` (3 to 5), `Write` and `Memory`; docs/FORMATS.md has their
/// causes. Only after `Write` may something have been written.
pub fn run_recon<R: Read, W: Write>(
    alloc: Global,
    reader: &mut R,
    writer: &mut W,
    limit: usize,
) -> Result<(), Refusal>
    requires { 4096 ≤ limit × limit ≤ 1048576 }
    ensures ok { OnOk result (IfSome (R.remaining reader.old) (λ input.
        IsPrinted limit input (W.contents writer.old) (W.contents writer.new))) }
    ensures err { IfErr result (λ e. IfSome (R.remaining reader.old) (λ input. IsReconRefusal limit input e)) }
    ensures unwritten { IfErr result (λ e. e ≢ Refusal.Write → Keeps (W.contents writer.old) (W.contents writer.new)) }
{
    let bytes = read_all(alloc, reader)?;
    let (peer, outcome) = reconcile_input(alloc, &bytes, limit)?;
    write_recon(
        alloc,
        writer,
        peer.pairs(),
        &outcome.need,
        &outcome.have,
        outcome.trusted.len(),
    )
}
