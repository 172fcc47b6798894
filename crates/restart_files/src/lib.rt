//! Restart files: the state of a run and its settings, written to bytes and read from them.
#![tactic(auto)]

mod bodies;
mod differs;
mod errors;
mod head;
mod numbers;
mod put;
mod read;
mod round_trip;
mod settings;
mod state;
mod write;

pub use differs::{Differs, same_params};
pub use errors::RestartErr;
pub use put::put_restart;
pub use read::read_restart;
pub use round_trip::{reading_is_exact, written_states_are_read};
pub use state::State;
pub use write::write_restart;

#[cfg(test)]
mod tests;
