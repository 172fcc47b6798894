//! The bodies that are near to a body.
#![tactic(auto)]

mod finder;
mod reach;
mod walk;

pub use finder::Finder;

#[cfg(test)]
mod tests;
