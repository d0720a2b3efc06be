//! One connection of a relay, as a pure machine: what is answered to a client's texts from the store (NIP-01, NIP-77).
#![tactic(auto)]

mod catching;
mod conn;
mod fault;
mod limits;
mod messages;
mod requests;
mod serving;
mod sessions;
mod step;
mod storing;
mod subs;
mod talk;

pub use catching::Caught;
pub use conn::Conn;
pub use fault::ConnFault;
pub use limits::RelayLimits;
pub use step::Step;
pub use storing::StoringFault;
