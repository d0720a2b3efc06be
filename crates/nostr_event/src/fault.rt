// Why a value is no event.
ghost use Rattle.std.specs.Prelude.{◌≡◌};
ghost use Rattle.nostr_event.specs.declared.fault.EventFault.TheVariants.{Memory};

use std::alloc::{AllocError, AllocFailed};

/// A field of an event's object, or the object itself.
#[derive(Clone, Copy, PartialEq, Eq)]
pub enum EventField {
    Object,
    Id,
    Pubkey,
    CreatedAt,
    Kind,
    Tags,
    Content,
    Sig,
}

/// Why a value is no event. Of several faults the first of these kinds is told, and within a kind the first field in the order
/// of [`EventField`].
#[derive(Clone, Copy, PartialEq, Eq)]
pub enum EventFault {
    /// The field is missing or of another JSON type.
    Shape(EventField),
    /// The text isn't the right number of lower-case hexadecimal digits.
    Hex(EventField),
    /// The number is no whole number in the field's range.
    Range(EventField),
    /// The id is the digest of neither spelling of the draft's text.
    WrongId,
    /// There was no memory.
    Memory,
}

impl From<AllocError> for EventFault {
    ghost from_gives = { λ _ e. e ≡ Memory };

    fn from(_error: AllocError) -> EventFault {
        EventFault::Memory
    }
}

impl<T: Drop> From<AllocFailed<T>> for EventFault {
    ghost from_gives = { λ _ e. e ≡ Memory };

    fn from(_error: AllocFailed<T>) -> EventFault {
        EventFault::Memory
    }
}
