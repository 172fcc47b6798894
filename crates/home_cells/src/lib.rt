//! What a rank knows of cells as their home: entries of the nodes of all ranks' trees, and their sums.
#![tactic(auto)]

mod children;
mod entries;
mod found;
mod gather;
mod marks;
mod spans;
mod table;

pub use entries::{Entry, entries_for};
pub use spans::Spans;
pub use table::HomeTable;

#[cfg(test)]
mod tests;
