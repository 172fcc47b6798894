//! Forces among bodies.
#![tactic(auto)]

mod covers;
mod levels;
mod list;
mod nodes;
mod on_bodies;
mod shares;
mod totals;

pub use list::ListField;

#[cfg(test)]
mod tests;
