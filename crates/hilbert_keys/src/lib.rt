//! Numbers of positions along a curve through the box.
#![tactic(auto)]

mod cells;
mod double_steps;
mod keys;
mod laws;
mod positions;
mod steps;

pub use cells::{cell_key_range, is_of_box, keys_in};
pub use keys::key_of;
pub use laws::{
    cells_are_ranges, children_are_next, each_child_has_place, keys_tell_cells, neighbours_follow,
    ranges_part,
};
pub use positions::pos_of;

#[cfg(test)]
mod tests;
