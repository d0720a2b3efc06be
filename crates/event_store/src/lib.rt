//! A store of events: one desk that inserts, and readers that pin what is published and never wait.
#![tactic(auto)]

mod all;
mod blank;
mod desk;
mod mark;
mod name;
mod open;
mod placed;
mod reader;
mod rule;
mod shown;
mod snapshot;
mod steps;

pub use all::AllEvents;
pub use blank::{Blank, Front};
pub use desk::{Desk, Filled, InsertFault};
pub use name::Naming;
pub use open::{StoreFault, open_small, open_store};
pub use placed::Placed;
pub use reader::{PinFault, Reader};
pub use snapshot::Snapshot;
