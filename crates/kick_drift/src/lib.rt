//! Kicks and drifts of a part of a set's bodies.
#![tactic(auto)]

mod change;
mod drifts;
mod ids;
mod kicks;
mod motion;

pub use drifts::drift;
pub use kicks::{KickErr, kick};

#[cfg(test)]
mod tests;
