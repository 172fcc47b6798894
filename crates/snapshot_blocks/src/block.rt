// A block, and what may be wrong with its frame.
use thiserror::Error;

/// A block by its name, and the place and the length of its contents in bytes.
#[derive(Clone, Copy, Debug, PartialEq, Eq)]
pub struct Block {
    pub name: [u8; 4],
    pub at: u64,
    pub len: u64,
}

/// What is wrong with a block's frame, or want of memory.
#[derive(Clone, Copy, Debug, PartialEq, Eq, Error)]
pub enum BlockKind {
    /// The bytes end within the block.
    #[error("truncated")]
    Truncated,
    /// The block doesn't begin with the word 8.
    #[error("name frame")]
    NameFrame,
    /// A frame begins with one word and ends with another.
    #[error("frames differ {first} {last}")]
    FrameDiffers { first: u32, last: u32 },
    /// The word behind the name isn't the length of the contents and 8.
    #[error("skip differs")]
    SkipDiffers,
    /// Want of memory.
    #[error("no memory")]
    Memory,
}

/// The first fault of the frames, and its place in bytes.
#[derive(Clone, Copy, Debug, PartialEq, Eq, Error)]
#[error("{kind} at {at}")]
pub struct BlockErr {
    pub at: u64,
    pub kind: BlockKind,
}
