// Blocks by their names.
ghost use Rattle.std.specs.Prelude.{◌≡◌, ◌≤◌, ◌+◌, length, All, IfSome, IfOk, IfErr, OnOk, MatchOption, Some, None, is_some, true};
ghost use Rattle.snapshot_blocks.specs.Blocks.{IsWithin};
ghost use Rattle.snap_file.specs.Snapshots.{AreBlocks, IsBlocksFault, IsFirstRepeat, NoRepeatBelow, block_named, contents_named, framing_of, is_known};
ghost use Rattle.snap_file.specs.declared.errors.SnapErr.TheVariants.{MissingBlock};

use crate::SnapErr;
use snapshot_blocks::{Block, BlockErr, BlockKind, list_blocks};
use std::alloc::Global;

fn is_known(name: [u8; 4]) -> bool
    ensures { result ≡ is_known name }
{
    name == *b"HEAD" || name == *b"POS " || name == *b"MOM " || name == *b"ID  " || name == *b"MASS"
}

// The first block of a name.
pub(crate) fn find_block(blocks: &[Block], name: [u8; 4]) -> Option<Block>
    ensures { result ≡ block_named name blocks.now }
{
    for block in blocks {
        if block.name == name {
            return Some(*block);
        }
    }
    None
}

// The first block with a known name that stood before.
fn first_repeat(blocks: &[Block]) -> Option<[u8; 4]>
    ensures { MatchOption result (NoRepeatBelow blocks.now (length blocks.now)) (IsFirstRepeat blocks.now) }
{
    for i in 0..blocks.len() {
        let name = blocks[i].name;
        if is_known(name) && find_block(&blocks[..i], name).is_some() {
            return Some(name);
        }
    }
    None
}

fn framing(fault: BlockErr) -> SnapErr
    ensures { result ≡ framing_of fault }
{
    match fault.kind {
        BlockKind::Memory => SnapErr::Memory,
        _ => SnapErr::Block(fault),
    }
}

// The blocks of these bytes, none of a known name twice.
pub(crate) fn blocks_of(alloc: Global, bytes: &[u8]) -> Result<Vec<Block>, SnapErr>
    ensures ok { IfOk result (λ blocks. AreBlocks bytes.now blocks.items) }
    ensures within { IfOk result (λ blocks. All (IsWithin bytes.now) blocks.items) }
    ensures err { IfErr result (IsBlocksFault bytes.now) }
{
    let blocks = match list_blocks(alloc, bytes) {
        Ok(blocks) => blocks,
        Err(fault) => return Err(framing(fault)),
    };
    match first_repeat(&blocks) {
        Some(name) => Err(SnapErr::RepeatedBlock(name)),
        None => Ok(blocks),
    }
}

// The contents of a block that has to be there.
pub(crate) fn contents<'a>(
    bytes: &'a [u8],
    blocks: &[Block],
    name: [u8; 4],
) -> Result<&'a [u8], SnapErr>
    requires { All (IsWithin bytes.now) blocks.now }
    ensures ok { IfOk result (λ text. contents_named bytes.now name blocks.now ≡ Some text.now) }
    ensures there { OnOk result (is_some (block_named name blocks.now) ≡ true) }
    ensures err { IfErr result (λ e. (e ≡ MissingBlock name) × (block_named name blocks.now ≡ None)) }
{
    let Some(block) = find_block(blocks, name) else {
        return Err(SnapErr::MissingBlock(name));
    };
    let from = block.at as usize;
    Ok(&bytes[from..from + block.len as usize])
}
