//! Which groups of a later catalogue the groups of an earlier one became.
#![tactic(auto)]

mod laws;
mod link;
mod list;
mod mains;
mod owners;
mod ties;

pub use laws::links_are_one;
pub use link::{Link, LinkList};
pub use list::links;

#[cfg(test)]
mod tests;
