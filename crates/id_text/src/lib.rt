//! The texts of ids and bytes, in lower-case hex digits, and of numbers, in decimal.
#![tactic(auto)]

mod bytes;
mod digits;
mod numbers;
mod parsing;

pub use bytes::parse_bytes;
pub use digits::digits_of;
pub use numbers::parse_number;
pub use parsing::parse_id;
