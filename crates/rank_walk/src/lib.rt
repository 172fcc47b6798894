//! A rank's walk over the cells that it has heard of, by their places in one list.
#![tactic(auto)]

mod adding;
mod asking;
mod heard;
mod hearing;
mod judging;
mod law;
mod laws;
mod opening;
mod places;
mod pushing;
mod ranked;
mod rule;
mod sending;
mod slot;
mod source;
mod starting;
mod told;
mod verdict;
mod walker;
mod walking;

pub use law::NodeLaw;
pub use laws::divisions_have_seats;
pub use rule::walk_by_rule;
pub use sending::Summed;
pub use source::Source;
pub use told::{Known, Told};
pub use walker::{Walked, Walker};

#[cfg(test)]
mod tests;
