// The laws of the definitions, as contracts.
pub mod bodies;
pub mod cells;
pub mod forces;
pub mod places;
pub mod sessions;
pub mod steps;
pub mod walk;
