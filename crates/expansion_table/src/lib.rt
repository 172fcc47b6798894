//! A table of how much of the time counts for kicks and for drifts, read from a file.
#![tactic(auto)]

mod errors;
mod factors;
mod read;
mod table;

pub use errors::ExpErr;
pub use factors::{drift_factor, kick_factor};
pub use read::read_expansion;
pub use table::Expansion;

#[cfg(test)]
mod tests;
