//! Parameter files, read to the settings that they spell or to their first fault, and written.
#![tactic(auto)]

mod checks;
mod entries;
mod errors;
mod names;
mod params;
mod reader;
mod writer;

pub use errors::{ParamErr, ParamKind};
pub use names::ParamName;
pub use params::Params;
pub use reader::read_params;
pub use writer::{write_params, written_and_read};

#[cfg(test)]
mod tests;
