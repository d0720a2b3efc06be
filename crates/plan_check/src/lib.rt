//! Plan files, and a checker whose yes means that no sharing has a smaller busiest load.
#![tactic(auto)]

mod faults;
mod file;
mod laws;
mod lines;
mod order;
mod reading;
mod records;
mod scanning;
mod text_lines;
mod verdict;
mod words;
mod writing;

pub use faults::PlanFault;
pub use file::PlanFile;
pub use laws::{one_answer, one_fault, one_file, round_trip};
pub use lines::{LONGEST_LINE, set_give, set_group};
pub use reading::{parse_plan, read_head, read_plan};
pub use records::cut_offer;
pub use scanning::{is_tail, scan_plan};
pub use text_lines::cut_line;
pub use verdict::check;
pub use words::cut_relay;
pub use writing::write_plan;
