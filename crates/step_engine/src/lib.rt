//! Base steps: the recursion over bins, over any forces and any taker of what happens.
#![tactic(auto)]

mod asks;
mod base;
mod closes;
mod course;
mod depth;
mod depths;
mod finish;
mod halt;
mod kick_out;
mod kicks;
mod parts;
mod pause;
mod recursion;
mod rounds;
mod step_end;
mod steps;
mod tells;
mod work;

pub use base::base_step;
pub use depths::Depths;
pub use finish::finish_step;
pub use kick_out::KickOut;
pub use step_end::{StepCount, StepEnd};

#[cfg(test)]
mod tests;
