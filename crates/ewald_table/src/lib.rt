//! A table of corrections of the force for the periodic images, read from a file and taken between its points.
#![tactic(auto)]

mod correct;
mod errors;
mod laws;
mod place;
mod read;
mod table;

pub use correct::correction;
pub use errors::TableErr;
pub use laws::{even_in_the_other_axes, odd_in_its_own_axis, zero_on_the_edges};
pub use read::read_table;
pub use table::Table;

#[cfg(test)]
mod tests;
