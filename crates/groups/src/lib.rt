//! Friends-of-friends groups: bodies joined by chains of links.
#![tactic(auto)]

mod catalogue;
mod chains;
mod heads;
mod laws;
mod search;

pub use catalogue::groups;
pub use laws::catalogues_are_one;

#[cfg(test)]
mod tests;
