//! What both sides of a link share: the limits of a WebSocket (RFC 6455), and why a link fails.
#![tactic(auto)]

mod fault;
mod reason;
mod socket;

pub use fault::LinkFault;
pub use reason::{Reason, TOO_SLOW, Told};
pub use socket::{MANY_BYTES, limits};
