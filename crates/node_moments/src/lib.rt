//! The moments of nodes, and the sums that they come from.
#![tactic(auto)]

mod moments;
mod raw;
mod shift;

pub use moments::Moments;
pub use raw::Raw;

#[cfg(test)]
mod tests;
