//! Bin files, and what they are for: taking a run back from its last bodies to its first ones.
#![tactic(auto)]

mod asks;
mod bins;
mod course;
mod drifts;
mod errors;
mod kicks;
pub mod laws;
mod parts;
mod read;
mod records;
mod rewinding;
mod stages;
mod steps;
mod undo;

pub use bins::Bins;
pub use errors::RewindErr;
pub use read::read_bins;
pub use rewinding::rewind;

#[cfg(test)]
mod tests;
