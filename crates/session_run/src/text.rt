//! What the job prints.

ghost use Rattle.std.specs.Prelude.{◌≡◌, ◌++◌, OnOk, codes, decimal, flat_map, string_bytes};
ghost use Rattle.session_run.specs.Lines.{end_line, ends_text, group_line, number_line, plan_text, round_text, counts_text};

use crate::fetching::Counts;
use fetch_plan::Plan;
use mirror_core::End;
use neg_session::SessionFault;
use offer_table::RelaySet;
use std::alloc::{AllocError, Global};
use std::fmt;

/// How the session with a relay ended: how many ids are needed of it, or what failed.
#[derive(Drop)]
pub struct SessionLine {
    pub relay: usize,
    pub needed: Result<usize, SessionFault>,
}

impl fmt::Display for SessionLine {
    ghost use Rattle.std.specs.Prelude.{Some};
    ghost use Rattle.session_run.specs.Lines.{session_text};

    ghost output = { λ l. Some (session_text l.relay l.needed) };

    fn fmt<W: fmt::Write>(&self, f: &mut fmt::Formatter<W>) -> fmt::Result {
        let relay = self.relay;
        match self.needed {
            Ok(need) => write!(f, "relay {relay} need {need}"),
            Err(fault) => {
                let number = fault.number();
                write!(f, "relay {relay} failed {number}")
            }
        }
    }
}

/// How the session with a relay ended.
fn put_end(alloc: Global, text: &mut String, relay: usize, end: &End) -> Result<(), AllocError>
    ensures { OnOk result (string_bytes text.new ≡ string_bytes text.old ++ end_line relay end.now) }
{
    let needed = match end {
        End::Finished(outcome) => Ok(outcome.need.len()),
        End::Failed(fault) => Err(*fault),
    };
    let line = SessionLine { relay, needed };
    text.push_str(format!(in alloc; "{line}\n")?.as_str())
}

/// How the sessions ended, a line each.
pub fn put_ends(alloc: Global, text: &mut String, ends: &[End]) -> Result<(), AllocError>
    ensures { OnOk result (string_bytes text.new ≡ string_bytes text.old ++ ends_text ends.now) }
{
    for (relay, end) in ends.iter().enumerate() {
        put_end(alloc, text, relay, end)?;
    }
    Ok(())
}

/// The members of a group, each behind a space.
fn put_members(alloc: Global, text: &mut String, group: RelaySet) -> Result<(), AllocError>
    ensures { OnOk result (string_bytes text.new ≡ string_bytes text.old ++ flat_map (λ r. codes " " ++ decimal r) group) }
{
    for relay in group.iter() {
        text.push_str(format!(in alloc; " {relay}")?.as_str())?;
    }
    Ok(())
}

/// The line of a group.
fn put_group(alloc: Global, text: &mut String, group: RelaySet) -> Result<(), AllocError>
    ensures { OnOk result (string_bytes text.new ≡ string_bytes text.old ++ group_line group) }
{
    text.push_str("group")?;
    put_members(alloc, text, group)?;
    text.push('\n')?;
    Ok(())
}

/// A name and a number.
fn put_number(alloc: Global, text: &mut String, name: &str, number: u64) -> Result<(), AllocError>
    ensures { OnOk result (string_bytes text.new ≡ string_bytes text.old ++ number_line name.now number) }
{
    text.push_str(name)?;
    text.push_str(format!(in alloc; " {number}\n")?.as_str())
}

/// The least busiest load of a plan, and its group.
pub fn put_plan(alloc: Global, text: &mut String, plan: &Plan) -> Result<(), AllocError>
    ensures { OnOk result (string_bytes text.new ≡ string_bytes text.old ++ plan_text plan.now) }
{
    put_number(alloc, text, "least", plan.least_max())?;
    put_group(alloc, text, plan.group())
}

/// A later round, and its plan.
pub fn put_round(
    alloc: Global,
    text: &mut String,
    round: u64,
    plan: &Plan,
) -> Result<(), AllocError>
    ensures { OnOk result (string_bytes text.new ≡ string_bytes text.old ++ round_text round plan.now) }
{
    put_number(alloc, text, "round", round)?;
    put_plan(alloc, text, plan)
}

/// What became of the ids.
pub fn put_counts(alloc: Global, text: &mut String, counts: &Counts) -> Result<(), AllocError>
    ensures { OnOk result (string_bytes text.new ≡ string_bytes text.old ++ counts_text counts.now) }
{
    put_number(alloc, text, "given", counts.given)?;
    put_number(alloc, text, "missed", counts.missed)?;
    put_number(alloc, text, "left", counts.left)
}
