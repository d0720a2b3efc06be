//! The relay's side of Nostr over WebSocket (NIP-01, NIP-77, RFC 6455), on any stream that reads and writes.
#![tactic(auto)]

mod counts;
mod fault;
mod greeting;
mod hearing;
mod messages;
mod outbox;
mod sending;
mod serve;
mod socket;
mod talk;
mod together;
mod turning;
mod turns;

pub use greeting::{Greeted, Greeting};
pub use serve::{serve_conn, serve_kept};
pub use talk::Talk;
pub use turning::Turned;
pub use turns::Turns;
