//! One rank of those that find forces together: its actions, and what it makes of messages.
#![tactic(auto)]

mod acting;
mod adding;
mod along;
mod build;
mod contents;
mod due;
mod forces;
mod handed;
mod keyed;
mod kit;
pub mod laws;
mod mail;
mod members;
mod message;
mod outgoing;
mod post;
mod rank;
mod shares;
mod sums;
mod taking;
mod walk;

pub use kit::Kit;
pub use message::Message;
pub use rank::{Acted, Rank};

#[cfg(test)]
mod tests;
