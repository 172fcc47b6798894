//! A run: base steps, and the files that it writes.
#![tactic(auto)]

mod course;
mod ended;
mod failure;
mod files;
mod inputs;
mod lines;
mod log;
mod names;
mod open_files;
mod own;
mod recorder;
mod session;
mod step;
mod steps;
mod sync;
mod turn;
mod writes;

pub use ended::{End, Ended};
pub use inputs::Inputs;
pub use names::numbered;
pub use session::run;

#[cfg(test)]
mod tests;
