//! The blocks of a snapshot, each framed by its length.
#![tactic(auto)]

mod block;
mod list;
mod push;

pub use block::{Block, BlockErr, BlockKind};
pub use list::{bytes_have_a_reading, framing_is_exact, list_blocks, written_blocks_are_listed};
pub use push::{close_block, open_block, push_block};

#[cfg(test)]
mod tests;
