// Why a value is no filter.
ghost use Rattle.std.specs.Prelude.{◌≡◌};
ghost use Rattle.nostr_filter.specs.declared.fault.FilterFault.TheVariants.{Memory};

use std::alloc::{AllocError, AllocFailed};

/// A field of a filter's object, or the object itself, in the byte order of the names.
#[derive(Clone, Copy, PartialEq, Eq)]
pub enum FilterField {
    Object,
    /// `#x` for the ASCII letter x.
    Tag(u8),
    Authors,
    Ids,
    Kinds,
    Limit,
    Since,
    Until,
}

/// Why a value is no filter. Of several faults the first of these kinds is told, and within a kind the first field in the byte
/// order of the names.
#[derive(Clone, Copy, PartialEq, Eq)]
pub enum FilterFault {
    /// The field is of another shape than NIP-01 says; a number that isn't whole or out of its range is, too.
    Shape(FilterField),
    /// A text of the list isn't 64 lower-case hexadecimal digits.
    Hex(FilterField),
    /// There was no memory.
    Memory,
}

impl From<AllocError> for FilterFault {
    ghost from_gives = { λ _ e. e ≡ Memory };

    fn from(_error: AllocError) -> FilterFault {
        FilterFault::Memory
    }
}

impl<T: Drop> From<AllocFailed<T>> for FilterFault {
    ghost from_gives = { λ _ e. e ≡ Memory };

    fn from(_error: AllocFailed<T>) -> FilterFault {
        FilterFault::Memory
    }
}
