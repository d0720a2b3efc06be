//! The program's jobs on plans, over any reader and any writer.
#![tactic(auto)]

mod checking;
mod laws;
mod members;
mod offers;
mod planning;
mod printing;
mod texts;
mod writing;

pub use checking::{least_of, run_check};
pub use laws::{faulty_lines_fail, faulty_texts_fail, least_texts_pass, planned_texts_pass};
pub use planning::{plan_of, run_plan};
