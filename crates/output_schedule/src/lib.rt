//! Lists of the times at which snapshots are due.
#![tactic(auto)]

mod errors;
mod reader;
mod times;

pub use errors::OutputErr;
pub use reader::read_outputs;
pub use times::due;

#[cfg(test)]
mod tests;
