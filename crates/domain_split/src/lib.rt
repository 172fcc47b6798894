//! Bodies divided among ranks along the curve, and the homes and spans of cells.
#![tactic(auto)]

mod bounds;
mod homes;
mod laws;
mod owners;
mod search;

pub use bounds::Bounds;
pub use homes::{home, span};
pub use laws::{homes_lie_in_spans, homes_rise};
pub use owners::split;
pub use search::count_below;

#[cfg(test)]
mod tests;
