//! Messages of the Negentropy protocol, version 1: their parts, and how they are read and written.
#![tactic(auto)]

use std::alloc::{AllocError, AllocFailed};
use thiserror::Error;

/// Where a range ends: below a key, or nowhere.
#[derive(Clone, Copy, PartialEq, Eq, PartialOrd, Ord)]
pub enum Bound {
    At(Key),
    Infinite,
}

/// What a range says of its keys (Negentropy protocol V1, "Range").
#[derive(PartialEq, Eq, Drop)]
pub enum Payload {
    /// Nothing.
    Skip,
    /// The fingerprint of their records.
    Print([u8; 16]),
    /// The ids of their records.
    Ids(Vec<Id>),
}

/// A range of a message, from where the one before it ends up to below its upper bound.
#[derive(Drop)]
pub struct Range {
    pub upper: Bound,
    pub payload: Payload,
}

/// Why bytes or ranges are no message. A place counts the bytes before it, or the ranges.
#[derive(Clone, Copy, Debug, PartialEq, Eq, Error)]
pub enum CodecFault {
    /// There are no bytes.
    #[error("an empty message")]
    Empty,
    /// The first byte isn't 61.
    #[error("version byte {0}")]
    Version(u8),
    /// No number begins there.
    #[error("byte {0}: no number")]
    Varint(usize),
    /// The bytes end in the id, the print or the ids that begin there.
    #[error("byte {0}: cut short")]
    Truncated(usize),
    /// The length of an id's first bytes, which stands there, is above 32.
    #[error("byte {0}: more than 32 bytes of an id")]
    PrefixLength(usize),
    /// The range that begins there has a time of 2^64-1 or more.
    #[error("byte {0}: a time of 2^64-1 or more")]
    TimeTooLarge(usize),
    /// The range there has a bound below the one before.
    #[error("place {0}: a bound below the one before")]
    Descending(usize),
    /// The range there follows an infinite bound.
    #[error("place {0}: a range after infinity")]
    AfterInfinity(usize),
    /// The mode there is none of 0 to 2.
    #[error("byte {0}: an unknown mode")]
    Mode(usize),
    /// There are more than 1,048,576 bytes.
    #[error("a message of more than 1,048,576 bytes")]
    TooLong,
    /// A growth was refused.
    #[error("out of memory")]
    Memory,
}

mod bounds;
mod fields;
mod laws;
mod message;
mod sizes;
mod writing;

pub use item_key::{Id, Item, Key, one_place, order_of_keys};
pub use laws::{one_message, one_stretch, round_trip};
pub use message::{Message, decode};
pub use writing::encode;

impl From<AllocError> for CodecFault {
    ghost use Rattle.std.specs.Prelude.{◌≡◌};
    ghost use Rattle.neg_codec.specs.declared.CodecFault.TheVariants.{Memory};

    ghost from_gives = { λ _ e. e ≡ Memory };

    fn from(_e: AllocError) -> CodecFault {
        CodecFault::Memory
    }
}

impl<T: Drop> From<AllocFailed<T>> for CodecFault {
    ghost use Rattle.std.specs.Prelude.{◌≡◌};
    ghost use Rattle.neg_codec.specs.declared.CodecFault.TheVariants.{Memory};

    ghost from_gives = { λ _ e. e ≡ Memory };

    fn from(_e: AllocFailed<T>) -> CodecFault {
        CodecFault::Memory
    }
}
