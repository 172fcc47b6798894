//! Cells: cubes of the box, by a level and a corner.
#![tactic(auto)]

mod cell;
mod laws;

pub use cell::{Cell, cell_of};
pub use laws::{
    before_is_order, children_part, deepest_is_one, digit_names, disjoint_or_nested, root_is_all,
};

#[cfg(test)]
mod tests;
