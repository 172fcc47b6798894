//! The laws of the model and its worked cases: each a public function with an empty body, whose contract is the law.
#![tactic(auto)]

pub mod laws;
pub mod worked;
