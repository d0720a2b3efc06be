//! A WebSocket (RFC 6455) over a stream, which knows all bytes that the stream gave and took. It never waits by itself: where the
//! stream would block, its calls say so.
#![tactic(auto)]

mod fault;
mod heard;
mod link;
mod talking;
mod trail;

pub use fault::Fault;
pub use heard::{Heard, Message};
pub use link::Wire;
pub use trail::Trail;
