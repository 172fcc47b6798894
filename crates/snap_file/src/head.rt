// The head of a snapshot.
ghost use Rattle.std.specs.Prelude.{◌≡◌, ◌≤◌, ◌+◌, length, All, IfOk, IfErr, Some, None};
ghost use Rattle.snapshot_blocks.specs.Blocks.{IsWithin};
ghost use Rattle.snap_file.specs.Snapshots.{AreBlocks, HasHead, IsHeadFault, SpellsHead, head_fault, head_in};

use crate::SnapErr;
use crate::find::{blocks_of, contents};
use fixed_point::{word32, word64};
use snapshot_blocks::Block;
use std::alloc::Global;

const TAG: [u8; 8] = *b"I4SNAP01";

const HEAD_LENGTH: usize = 256;

/// How many bodies of each kind, 0 to 5, a snapshot has, its tick and its number.
#[derive(Clone, Copy, Debug, PartialEq, Eq)]
pub struct Head {
    pub counts: [u32; 6],
    pub tick: u64,
    pub number: u32,
}

// The head in these 256 bytes.
fn head_at(bytes: &[u8]) -> Head
    requires { length bytes.now ≡ 256 }
    ensures { result ≡ head_in bytes.now }
{
    Head {
        counts: [
            word32(bytes, 8),
            word32(bytes, 12),
            word32(bytes, 16),
            word32(bytes, 20),
            word32(bytes, 24),
            word32(bytes, 28),
        ],
        tick: word64(bytes, 32),
        number: word32(bytes, 40),
    }
}

// The head in the contents of its block.
fn head_of(bytes: &[u8]) -> Result<Head, SnapErr>
    ensures ok { IfOk result (λ head. (head_fault bytes.now ≡ None) × (head ≡ head_in bytes.now)) }
    ensures err { IfErr result (λ e. head_fault bytes.now ≡ Some e) }
{
    if bytes.len() != HEAD_LENGTH {
        return Err(SnapErr::HeadLength {
            got: bytes.len() as u64,
        });
    }
    if bytes[..8] != TAG[..] {
        return Err(SnapErr::HeadTag);
    }
    Ok(head_at(bytes))
}

// The head of a snapshot with these blocks.
pub(crate) fn head_from(bytes: &[u8], blocks: &[Block]) -> Result<Head, SnapErr>
    requires blocks_are { AreBlocks bytes.now blocks.now }
    requires within { All (IsWithin bytes.now) blocks.now }
    ensures ok { IfOk result (HasHead bytes.now blocks.now) }
    ensures err { IfErr result (IsHeadFault bytes.now) }
{
    head_of(contents(bytes, blocks, *b"HEAD")?)
}

/// The head of a snapshot, by the frames of its blocks, their names and the head alone.
pub fn read_head(alloc: Global, bytes: &[u8]) -> Result<Head, SnapErr>
    ensures ok { IfOk result (SpellsHead bytes.now) }
    ensures err { IfErr result (IsHeadFault bytes.now) }
{
    let blocks = blocks_of(alloc, bytes)?;
    head_from(bytes, &blocks)
}
