//! Files of events: one event as JSON a line. Read into a store, and kept as the log of it.
#![tactic(auto)]

mod ahead;
mod fault;
mod file;
mod path;
mod reading;
mod writing;

pub use ahead::{Ahead, insert_ahead};
pub use fault::FileFault;
pub use file::EventsFile;
pub use reading::{holds_event, insert_lines};
pub use writing::write_lines;
