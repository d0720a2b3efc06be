//! The asking side of Nostr over WebSocket (NIP-01, NIP-77, RFC 6455), on any stream that reads and writes.
#![tactic(auto)]

mod client;
mod head;
mod link;
mod live;
mod notes;
mod peer;
mod source;

pub use live::{Brought, WsSubscription};
pub use notes::{Explains, Notes};
pub use peer::WsPeer;
pub use source::WsSource;
pub use ws_socket::{LinkFault, Reason, TOO_SLOW};
