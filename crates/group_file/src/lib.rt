//! Groups of bodies, and the file of a catalogue of them.
#![tactic(auto)]

mod catalogue;
mod errors;
mod laws;
mod read;
mod repeats;
mod write;

pub use catalogue::{Catalogue, Group};
pub use errors::GroupErr;
pub use laws::written_catalogues_are_read;
pub use read::read_groups;
pub use write::write_groups;

#[cfg(test)]
mod tests;
