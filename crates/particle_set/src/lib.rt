//! Valid sets of bodies: ascending in id, few enough and light enough together.
#![tactic(auto)]

mod body_set;
mod faults;
mod lent;
mod row;
mod stored;

pub use body_set::BodySet;
pub use row::{Row, SetErr};
pub use stored::are_storable;

#[cfg(test)]
mod tests;
