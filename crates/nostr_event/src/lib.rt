//! Nostr events (NIP-01): drafts, the texts that their ids are digests of, and their JSON.
//!
//! An [`Event`] always has the right id: the SHA-256 digest of one of the two spellings of its draft's text.
//! Signatures are read as 64 bytes and never checked.
#![tactic(auto)]

mod draft;
mod event;
mod fault;
mod fields;
mod hexes;
mod ids;
mod parts;
mod printing;
mod reading;
mod runs;
mod tags;
mod texts;
mod writing;

pub use draft::{Draft, Spelling};
pub use event::Event;
pub use fault::{EventFault, EventField};
pub use hexes::{bytes32_of, bytes64_of};
pub use ids::{id_of, id_text};
pub use tags::{Iter, Tag, Tags, Texts};
pub use texts::Text;
