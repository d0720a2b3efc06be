//! Tests at the greatest sizes that rolls, tables and plans take, or near them: a build with checks is too slow for these, so they
//! are proved as the crates are.
#![tactic(auto)]

#[cfg(test)]
mod plans;
#[cfg(test)]
mod rolls;
#[cfg(test)]
mod tables;
