//! Messages between ranks that are under way, of which some have to wait.
#![tactic(auto)]

mod blocks;
mod mail;

pub use mail::Mail;
