//! Why a text or lists are no plan file, and why a plan file is no plan.

ghost use Rattle.std.specs.Prelude.{◌≡◌};
ghost use Rattle.plan_check.specs.declared.faults.PlanFault.TheVariants.{Memory as memory};

use std::alloc::{AllocError, AllocFailed};
use thiserror::Error;

/// Why a text or lists are no plan file, or a plan file is no plan.
#[derive(Clone, Copy, Debug, PartialEq, Eq, Error)]
pub enum PlanFault {
    /// The line with this number, counted from 1, is not of the form, is out of place or is missing.
    #[error("line {0}: not of the form, out of place or missing")]
    Line(usize),
    /// The id of the line with this number is not above that of the line before with the same word, or its relays do
    /// not ascend.
    #[error("line {0}: out of order")]
    Order(usize),
    /// An offered id is given to a relay that does not offer it.
    #[error("an id is given to a relay that doesn't offer it")]
    NotOffered,
    /// An offered id is not given.
    #[error("an offered id isn't given")]
    Missing,
    /// A given id is not offered.
    #[error("a given id isn't offered")]
    Stranger,
    /// The group does not show that no sharing has a smaller busiest load.
    #[error("the group doesn't show that the busiest relay can't have fewer")]
    GroupTooSmall,
    /// A growth was refused.
    #[error("out of memory")]
    Memory,
}

impl From<AllocError> for PlanFault {
    ghost from_gives = { λ _ e. e ≡ memory };

    fn from(_e: AllocError) -> PlanFault {
        PlanFault::Memory
    }
}

impl<T: Drop> From<AllocFailed<T>> for PlanFault {
    ghost from_gives = { λ _ e. e ≡ memory };

    fn from(_e: AllocFailed<T>) -> PlanFault {
        PlanFault::Memory
    }
}
