//! Bodies that are drawn from a seed, and the files of a run that begins with them.
#![tactic(auto)]

mod bodies;
mod draws;
mod files;
mod settings;

pub use bodies::draw_bodies;
pub use files::{MakeErr, make, put_file};
pub use settings::settings_text;

#[cfg(test)]
mod tests;
