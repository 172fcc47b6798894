//! Forces among bodies found by ranks that exchange messages, in any order.
#![tactic(auto)]

mod division;
mod events;
mod field;
mod firing;
mod gathering;
mod machine;
mod play;
mod posting;

pub use field::RankField;
pub use machine::Machine;

#[cfg(test)]
mod tests;
