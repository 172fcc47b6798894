//! Laws of ranks that find forces together, each the contract of a public function with an empty body: neither the number of
//! ranks nor the order in which messages come shows in what they find.
#![tactic(auto)]

pub mod forces;
pub mod runs;
