use crate::slot::Slot;
use fixed_point::V3;

/// The cells that a rank has heard of, by their places, the root first; what was done to each; and which of them took
/// part in an interaction that was counted, and were asked for.
#[derive(Drop)]
pub(crate) struct Heard {
    pub(crate) slots: Vec<Slot>,
    pub(crate) sums: Vec<V3>,
    pub(crate) touched: Vec<bool>,
    pub(crate) asked: Vec<bool>,
}
