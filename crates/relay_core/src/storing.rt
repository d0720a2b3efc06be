//! Why an event of a client isn't stored.

use event_store::{InsertFault, Naming};

/// Why an event of a client isn't stored.
#[derive(Drop)]
pub enum StoringFault<J: Naming> {
    /// The store refused it.
    Refused(InsertFault<J>),
    /// It is in the store, and couldn't be kept.
    Unkept,
}
