//! The flat tree of nodes.
#![tactic(auto)]

mod grow;
mod laws;
mod order;
mod sums;
mod tree;

pub use laws::{
    children_are_beside, members_are_range, opened_is_order, trees_are_in_order, trees_are_small,
    trees_have_nodes,
};
pub use order::{number_at, sorted_numbers};
pub use tree::{Tree, build};

#[cfg(test)]
mod tests;
