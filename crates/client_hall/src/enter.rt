//! Who is given a seat.

use crate::client::{Client, Line};
use std::alloc::Global;
use std::sync::Arc;

/// Who is given a seat.
pub trait Enter: Drop {
    /// A connection whose handshake is still to come.
    fn enter(alloc: Global, client: Arc<Client>, line: Line) -> Self;
}
