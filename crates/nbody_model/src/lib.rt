//! Bodies, setups, and what forces and steps mean.
#![tactic(auto)]

mod body;
mod field;
mod forces;
mod kicks;
mod setup;

pub use body::{Body, Motion};
pub use field::{Event, EventKind, Field};
pub use forces::Forces;
pub use kicks::Record;
pub use setup::Setup;
