// Reads the frames of blocks, forward once.
ghost use Rattle.std.specs.Prelude.{◌≡◌, ◌<◌, ◌≤◌, ◌+◌, length, slice_range, All, IfOk, IfErr, Some};
ghost use Rattle.snapshot_blocks.specs.Written.{ListsWritten};
ghost use Rattle.snapshot_blocks.specs.Blocks.{fault_at, StandsAt, Spell, IsFirstFault, IsWithin, IfFramed, HasReading, ReadOneWay};

use crate::{Block, BlockErr, BlockKind};
use fixed_point::word32;
use std::alloc::Global;

fn name_at(bytes: &[u8], at: usize) -> [u8; 4]
    requires { at + 4 ≤ length bytes.now }
    ensures { result ≡ slice_range bytes.now at (at + 4) }
{
    [bytes[at], bytes[at + 1], bytes[at + 2], bytes[at + 3]]
}

fn fault(at: usize, kind: BlockKind) -> BlockErr
    ensures at { result.at ≡ at }
    ensures kind { result.kind ≡ kind }
{
    BlockErr {
        at: at as u64,
        kind,
    }
}

// The block that begins here, or the first condition that applies.
fn block_at(bytes: &[u8], p: usize) -> Result<Block, BlockErr>
    requires { p < length bytes.now }
    ensures ok { IfOk result (StandsAt bytes.now p) }
    ensures err { IfErr result (λ e. fault_at bytes.now p ≡ Some (e.at, e.kind)) }
{
    let left = bytes.len() - p;
    if left < 4 {
        return Err(fault(p, BlockKind::Truncated));
    }
    if word32(bytes, p) != 8 {
        return Err(fault(p, BlockKind::NameFrame));
    }
    if left < 16 {
        return Err(fault(p, BlockKind::Truncated));
    }
    let name_end = word32(bytes, p + 12);
    if name_end != 8 {
        return Err(fault(
            p + 12,
            BlockKind::FrameDiffers {
                first: 8,
                last: name_end,
            },
        ));
    }
    if left < 20 {
        return Err(fault(p + 16, BlockKind::Truncated));
    }
    let first = word32(bytes, p + 16);
    if u64::from(word32(bytes, p + 8)) != u64::from(first) + 8 {
        return Err(fault(p + 8, BlockKind::SkipDiffers));
    }
    let len = first as usize;
    if left < 24 + len {
        return Err(fault(p + 16, BlockKind::Truncated));
    }
    let last = word32(bytes, p + 20 + len);
    if last != first {
        return Err(fault(p + 20 + len, BlockKind::FrameDiffers { first, last }));
    }
    Ok(Block {
        name: name_at(bytes, p + 4),
        at: (p + 20) as u64,
        len: u64::from(first),
    })
}

/// The blocks of these bytes, or the first fault of their frames.
pub fn list_blocks(alloc: Global, bytes: &[u8]) -> Result<Vec<Block>, BlockErr>
    ensures ok { IfOk result (λ blocks. Spell bytes.now blocks.items) }
    ensures within { IfOk result (λ blocks. All (IsWithin bytes.now) blocks.items) }
    ensures err { IfErr result (λ e. IfFramed e (IsFirstFault bytes.now e)) }
{
    let mut blocks = Vec::new(alloc);
    let mut p = 0usize;
    while p < bytes.len() {
        let block = block_at(bytes, p)?;
        p += 24 + block.len as usize;
        blocks.push(block).map_err(|_| fault(p, BlockKind::Memory))?;
    }
    Ok(blocks)
}

/// Bytes are blocks in at most one way, have at most one first fault, and never both.
pub fn framing_is_exact(bytes: &[u8])
    ensures { ReadOneWay bytes.now }
{}

/// All bytes are blocks or have a first fault.
pub fn bytes_have_a_reading(bytes: &[u8])
    ensures { HasReading bytes.now }
{}

/// Listing bytes that were written as blocks gives these blocks, with the places of their contents.
pub fn written_blocks_are_listed()
    ensures { ListsWritten }
{}
