//! Who offers what: tables of ids, each with the set of relays that offer it.
//!
//! Contracts above cite `Table`, `IsTable` and `new_in` of `specs/Table`, `groups_of`, `AreGroups` and `AreNumbers`
//! of `specs/Groups`, and `base_fault` of `specs/Faults`.
#![tactic(auto)]

mod bases;
mod combined;
mod faults;
mod groups;
mod guess;
mod hashed;
mod ids;
mod kinds;
mod ranks;
mod relays;
mod table;

pub use bases::Bases;
pub use faults::{BaseFault, OfferFault};
pub use ids::Ids;
pub use kinds::Kinds;
pub use relays::{Members, RelaySet};
pub use table::OfferTable;
