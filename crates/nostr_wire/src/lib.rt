//! The texts that Nostr clients and relays send each other (NIP-01, NIP-77), read as messages and written.
//!
//! A message is a JSON array: its name, and the elements that the table of that side has for the name.
#![tactic(auto)]

mod elements;
mod events;
mod fault;
mod lists;
mod messages;
mod names;
mod reading;
mod streaming;
mod values;
mod writing;

pub use fault::WireFault;
pub use lists::{Bytes, Filters, Sub};
pub use messages::{FromClient, FromRelay};
pub use names::{Heading, Name};
pub use reading::{read_client, read_client_few, read_relay, read_relay_in};
pub use writing::{write_client, write_relay, write_relay_in};
