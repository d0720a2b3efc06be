//! Why a job wasn't done.

ghost use Rattle.std.specs.Prelude.{◌≡◌};
ghost use Rattle.mirror_run.specs.declared.refusal.Refusal.TheVariants.{Memory as memory};

use std::alloc::{AllocError, AllocFailed};
use std::error::Error;
use std::fmt;

/// What is wrong with a line of the input.
#[derive(Clone, Copy, Debug)]
pub enum LineFault {
    /// It isn't of the form, or is out of place, or is missing.
    Form,
    /// The item's time is 2^64-1.
    Infinity,
    /// The same item stands earlier in its list.
    Present,
    /// The list has 1,000,000 items already.
    Full,
    /// A plan's line isn't above the one before with the same word, or its relays don't ascend.
    Order,
}

/// Why a job wasn't done.
#[derive(Clone, Copy, Debug)]
pub enum Refusal {
    /// A read failed.
    Read,
    /// A write failed.
    Write,
    /// The input has more than 67,108,864 bytes.
    InputTooLong,
    /// The input isn't UTF-8.
    NotUtf8,
    /// The first line at fault, counted from 1.
    Line(usize, LineFault),
    /// The number of the session's fault, 1 to 5.
    Session(u8),
    /// The number of what the plan lacks, 3 to 6: an id is given to a relay that doesn't offer it, an
    /// offered id isn't given, a given id isn't offered, the group doesn't show the greatest load.
    Plan(u8),
    /// More than 200,000 ids are offered.
    TableFull,
    /// Want of memory.
    Memory,
}

impl fmt::Display for LineFault {
    ghost use Rattle.std.specs.Prelude.{Some};
    ghost use Rattle.mirror_run.specs.RefusalText.{fault_text};

    ghost output = { λ f. Some (fault_text f) };

    fn fmt<W: fmt::Write>(&self, f: &mut fmt::Formatter<W>) -> fmt::Result {
        match self {
            LineFault::Form => write!(f, "form"),
            LineFault::Infinity => write!(f, "infinity"),
            LineFault::Present => write!(f, "present"),
            LineFault::Full => write!(f, "full"),
            LineFault::Order => write!(f, "order"),
        }
    }
}

/// The text that follows `refused: `.
impl fmt::Display for Refusal {
    ghost use Rattle.std.specs.Prelude.{Some};
    ghost use Rattle.mirror_run.specs.RefusalText.{refusal_text};

    ghost output = { λ r. Some (refusal_text r) };

    fn fmt<W: fmt::Write>(&self, f: &mut fmt::Formatter<W>) -> fmt::Result {
        match self {
            Refusal::Read => write!(f, "read"),
            Refusal::Write => write!(f, "write"),
            Refusal::InputTooLong => write!(f, "input too long"),
            Refusal::NotUtf8 => write!(f, "not UTF-8"),
            Refusal::Line(n, fault) => write!(f, "line {n}: {fault}"),
            Refusal::Session(k) => write!(f, "session {k}"),
            Refusal::Plan(k) => write!(f, "plan {k}"),
            Refusal::TableFull => write!(f, "table full"),
            Refusal::Memory => write!(f, "memory"),
        }
    }
}

impl Error for LineFault {}

impl Error for Refusal {}

impl From<AllocError> for Refusal {
    ghost from_gives = { λ _ e. e ≡ memory };

    fn from(_e: AllocError) -> Refusal {
        Refusal::Memory
    }
}

impl<T: Drop> From<AllocFailed<T>> for Refusal {
    ghost from_gives = { λ _ e. e ≡ memory };

    fn from(_e: AllocFailed<T>) -> Refusal {
        Refusal::Memory
    }
}
