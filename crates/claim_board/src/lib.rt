//! A board on which lanes claim the cells of a plan. A cell is claimed, looked at, finished, missed or released in one step on one word.
#![tactic(auto)]

mod board;
mod laws;
mod plays;
mod records;

pub use board::{Board, Lane};
pub use fetch_plan::Cell;
pub use laws::rule_is_sound;
pub use records::{BoardFault, Claimed, LaneRecord, Layout, Records, Rule};
