//! A walk over pairs of nodes: each force once, added to one node's place and taken from the other's.
#![tactic(auto)]

mod descent;
mod laws;
mod nodes;
mod pairs;
mod places;
mod verdicts;

pub use descent::walk;
pub use laws::{adds_totals, takes_interactions};
pub use places::add_pair;

#[cfg(test)]
mod tests;
