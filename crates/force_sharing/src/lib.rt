//! A total shared among members by their masses, with largest remainders.
#![tactic(auto)]

mod laws;
mod scratch;
mod sharing;
mod turns;

pub use laws::shares_look_at_ids_and_masses;
pub use scratch::Scratch;
pub use sharing::share;

#[cfg(test)]
mod tests;
