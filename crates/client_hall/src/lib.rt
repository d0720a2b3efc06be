//! Where clients are served side by side: the door, the seats, the queue of what is due.
#![tactic(auto)]

mod client;
mod door;
mod enter;
mod hall;
mod queue;
mod seat;

pub use client::{Client, Line, Patience};
pub use door::{Door, WAKER};
pub use enter::Enter;
pub use hall::Hall;
pub use queue::{Errand, Next};
pub use seat::Seat;
