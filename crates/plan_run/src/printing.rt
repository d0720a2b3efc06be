//! The texts of plans, written line by line.

ghost use Rattle.std.specs.Prelude.{◌≡◌, ◌++◌, ◌⊎◌, [], OnOk, IfErr};
ghost use Rattle.std.specs.List.{flat_map};
ghost use Rattle.std.specs.Io.KnownBytes.{Appends, Keeps};
ghost use Rattle.sharing.specs.Offers.{AreRelays};
ghost use Rattle.mirror_run.specs.Waiting.{Sends};
ghost use Rattle.plan_check.specs.TextLines.{ended};
ghost use Rattle.plan_check.specs.PlanText.{give_line, group_line};

use crate::members::members_of;
use fetch_plan::Plan;
use mirror_run::Refusal;
use mirror_run::waiting::{put, send};
use plan_check::{LONGEST_LINE, set_give, set_group};
use std::alloc::Global;
use std::io;
use std::io::Write;

/// How many bytes may wait to be written.
const WAITING: usize = 1 << 16;

/// Writes the lines of a plan's gives.
fn put_gives<W: Write>(out: &mut W, wait: &mut Vec<u8>, plan: &Plan) -> io::Result<()>
    ensures { OnOk result (Sends (W.contents out.old) wait.old.items (W.contents out.new) wait.new.items (flat_map (λ g. ended (give_line g)) plan.now.gives)) }
{
    let mut line = [0; LONGEST_LINE];
    for place in 0..plan.len() {
        let (id, relay) = plan.cell(place);
        let end = set_give(&mut line, &id, relay);
        put(out, wait, &line[..end])?;
    }
    Ok(())
}

/// Writes the line of a group.
fn put_group<W: Write>(out: &mut W, wait: &mut Vec<u8>, group: &[u16]) -> io::Result<()>
    requires { AreRelays group.now }
    ensures { OnOk result (Sends (W.contents out.old) wait.old.items (W.contents out.new) wait.new.items (ended (group_line group.now))) }
{
    let mut line = [0; LONGEST_LINE];
    let end = set_group(&mut line, group);
    put(out, wait, &line[..end])
}

/// Writes the text of the offers as it stands, and behind it the lines of a plan's gives and of a group.
fn put_plan<W: Write>(
    out: &mut W,
    wait: &mut Vec<u8>,
    offers: &[u8],
    plan: &Plan,
    group: &[u16],
) -> io::Result<()>
    requires { AreRelays group.now }
    ensures { OnOk result (Sends (W.contents out.old) wait.old.items (W.contents out.new) wait.new.items (offers.now ++ (flat_map (λ g. ended (give_line g)) plan.now.gives ++ ended (group_line group.now)))) }
{
    put(out, wait, offers)?;
    put_gives(out, wait, plan)?;
    put_group(out, wait, group)
}

/// Writes a plan's text to the end.
fn write_through<W: Write>(
    out: &mut W,
    wait: &mut Vec<u8>,
    offers: &[u8],
    plan: &Plan,
    group: &[u16],
) -> io::Result<()>
    requires empty { wait.old.items ≡ [] }
    requires group { AreRelays group.now }
    ensures { OnOk result (Appends (W.contents out.old) (W.contents out.new) (offers.now ++ (flat_map (λ g. ended (give_line g)) plan.now.gives ++ ended (group_line group.now)))) }
{
    put_plan(out, wait, offers, plan, group)?;
    send(out, wait)?;
    out.flush()
}

/// Writes a plan's text, of which the text of the offers is known. Memory is taken before anything is written.
pub(crate) fn write_plan<W: Write>(
    alloc: Global,
    writer: &mut W,
    offers: &[u8],
    plan: &Plan,
) -> Result<(), Refusal>
    requires { AreRelays plan.now.group }
    ensures ok { OnOk result (Appends (W.contents writer.old) (W.contents writer.new) (offers.now ++ (flat_map (λ g. ended (give_line g)) plan.now.gives ++ ended (group_line plan.now.group)))) }
    ensures err { IfErr result (λ e. (e ≡ Refusal.Write) ⊎ ((e ≡ Refusal.Memory) × Keeps (W.contents writer.old) (W.contents writer.new))) }
{
    let group = members_of(alloc, plan.group())?;
    let mut wait = Vec::with_capacity(alloc, WAITING)?;
    match write_through(writer, &mut wait, offers, plan, &group) {
        Ok(()) => Ok(()),
        Err(_) => Err(Refusal::Write),
    }
}
