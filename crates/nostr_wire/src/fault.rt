// Why a text is no message.
ghost use Rattle.std.specs.Prelude.{◌≡◌};
ghost use Rattle.nostr_wire.specs.declared.fault.WireFault.TheVariants.{Memory};

use item_key::Id;
use nostr_event::EventFault;
use std::alloc::{AllocError, AllocFailed};

/// Why a text is no message. Of several faults the first of these is told.
#[derive(Clone, Copy, PartialEq, Eq)]
pub enum WireFault {
    /// `serde_json` refuses the text.
    Json,
    /// It is no array, or its first element is none of that side's names.
    Kind,
    /// There are too few elements, or one is of another JSON type than the table shows; an event or a filter is an object.
    Arity,
    /// The name of a subscription or a session isn't 1 to 64 characters long.
    Sub,
    /// The event's fault, and its id where the field `id` spells one in 64 lower-case hexadecimal digits.
    Event(EventFault, Option<Id>),
    /// An element is no filter.
    Filter,
    /// Hexadecimal digits of an odd number, another character among them, or an id that isn't 64 lower-case digits.
    HexText,
    /// There was no memory.
    Memory,
}

impl From<AllocError> for WireFault {
    ghost from_gives = { λ _ e. e ≡ Memory };

    fn from(_error: AllocError) -> WireFault {
        WireFault::Memory
    }
}

impl<T: Drop> From<AllocFailed<T>> for WireFault {
    ghost from_gives = { λ _ e. e ≡ Memory };

    fn from(_error: AllocFailed<T>) -> WireFault {
        WireFault::Memory
    }
}
