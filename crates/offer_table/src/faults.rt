//! Why a table isn't made, or a base isn't set.

use crate::RelaySet;
use item_key::Id;
use std::alloc::{AllocError, AllocFailed};
use thiserror::Error;

/// Why a table wasn't made.
#[derive(Clone, Copy, Debug, PartialEq, Eq, Error)]
pub enum OfferFault {
    /// The number is no relay.
    #[error("not a relay's number")]
    Relay,
    /// More than [`sharing::MOST_IDS`] ids.
    #[error("more than 200,000 ids")]
    TableFull,
    /// Both tables hold a report of one relay.
    #[error("two reports of one relay")]
    Double,
    /// A growth was refused.
    #[error("out of memory")]
    Memory,
}

/// Why a base wasn't set.
#[derive(Clone, Copy, Debug, PartialEq, Eq, Error)]
pub enum BaseFault {
    /// The number is no relay.
    #[error("not a relay's number")]
    Relay,
    /// More than [`sharing::MOST_BASE`].
    #[error("a load above 1,000,000,000,000")]
    Load,
}

impl From<AllocFailed<(Id, RelaySet)>> for OfferFault {
    ghost use Rattle.std.specs.Prelude.{◌≡◌};
    ghost use Rattle.offer_table.specs.declared.faults.OfferFault.TheVariants.{Memory};

    ghost from_gives = { λ _ e. e ≡ Memory };

    fn from(_e: AllocFailed<(Id, RelaySet)>) -> OfferFault {
        OfferFault::Memory
    }
}

impl From<AllocError> for OfferFault {
    ghost use Rattle.std.specs.Prelude.{◌≡◌};
    ghost use Rattle.offer_table.specs.declared.faults.OfferFault.TheVariants.{Memory};

    ghost from_gives = { λ _ e. e ≡ Memory };

    fn from(_e: AllocError) -> OfferFault {
        OfferFault::Memory
    }
}
