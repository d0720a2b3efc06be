//! The program's jobs, over any reader and any writer.
#![tactic(auto)]

mod input;
mod item_text;
mod lines;
mod lists;
mod output;
mod placing;
mod recon;
mod refusal;
mod rolls;
pub mod waiting;

pub use input::{LONGEST_INPUT, read_all};
pub use lines::cut_line;
pub use lists::{Lists, read_lists};
pub use output::write_recon;
pub use placing::place_items;
pub use recon::{reconcile, run_recon};
pub use refusal::{LineFault, Refusal};
pub use rolls::read_rolls;
