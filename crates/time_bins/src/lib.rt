//! Which bodies may make steps of a bin, by the forces on them.
#![tactic(auto)]

mod part;
mod rule;

pub use part::fast_part;
pub use rule::fits;

#[cfg(test)]
mod tests;
