// What is printed of a snapshot that was refused.
ghost use Rattle.std.specs.Prelude.{◌≡◌, ◌++◌, OnOk, codes};
ghost use Rattle.gadget.specs.Texts.{spaced, block_text, set_text, snapshot_fault_text};

use fixed_point::Memory;
use particle_set::SetErr;
use snap_file::SnapErr;
use snapshot_blocks::{BlockErr, BlockKind};
use text_words::push_spaced;

/// Some words, and a number.
pub fn push_counted(line: &mut Vec<u8>, words: &[u8], n: u64) -> Result<(), Memory>
    ensures { OnOk result (line.new.items ≡ line.old.items ++ (words.now ++ spaced n)) }
{
    line.extend_from_slice(words)?;
    push_spaced(line, n)
}

// Some words, and a block's name of four bytes.
fn push_named(line: &mut Vec<u8>, words: &[u8], name: &[u8; 4]) -> Result<(), Memory>
    ensures { OnOk result (line.new.items ≡ line.old.items ++ (words.now ++ codes " " ++ name.now)) }
{
    line.extend_from_slice(words)?;
    line.push(b' ')?;
    line.extend_from_slice(name)?;
    Ok(())
}

fn push_block_err(line: &mut Vec<u8>, err: &BlockErr) -> Result<(), Memory>
    ensures { OnOk result (line.new.items ≡ line.old.items ++ block_text err.now.at err.now.kind) }
{
    match err.kind {
        BlockKind::Truncated => push_counted(line, b"truncated at", err.at),
        BlockKind::NameFrame => push_counted(line, b"name frame at", err.at),
        BlockKind::SkipDiffers => push_counted(line, b"skip differs at", err.at),
        BlockKind::FrameDiffers { first, last } => {
            push_counted(line, b"frames differ at", err.at)?;
            push_spaced(line, u64::from(first))?;
            push_spaced(line, u64::from(last))
        }
        BlockKind::Memory => Ok(()),
    }
}

/// Puts what is wrong with a set of bodies behind a line.
pub fn push_set_err(line: &mut Vec<u8>, err: &SetErr) -> Result<(), Memory>
    ensures { OnOk result (line.new.items ≡ line.old.items ++ set_text err.now) }
{
    match err {
        SetErr::TooMany { n } => push_counted(line, b"too many", *n),
        SetErr::Repeated { id } => push_counted(line, b"repeated id", *id),
        SetErr::ZeroMass { id } => push_counted(line, b"zero mass id", *id),
        SetErr::MassTotal { sum } => push_counted(line, b"mass total", *sum),
        SetErr::MomRange { id } => push_counted(line, b"momentum range id", *id),
        SetErr::Memory => Ok(()),
    }
}

fn push_length_err(line: &mut Vec<u8>, name: &[u8; 4], want: u64, got: u64) -> Result<(), Memory>
    ensures { OnOk result (line.new.items ≡ line.old.items ++ snapshot_fault_text (SnapErr.BlockLength name.now want got)) }
{
    push_named(line, b"block length", name)?;
    push_spaced(line, want)?;
    push_spaced(line, got)?;
    Ok(())
}

/// Puts what is wrong with a snapshot behind a line.
pub fn push_snap_err(line: &mut Vec<u8>, err: &SnapErr) -> Result<(), Memory>
    ensures { OnOk result (line.new.items ≡ line.old.items ++ snapshot_fault_text err.now) }
{
    match err {
        SnapErr::Block(block) => push_block_err(line, block),
        SnapErr::RepeatedBlock(name) => push_named(line, b"repeated block", name),
        SnapErr::MissingBlock(name) => push_named(line, b"missing block", name),
        SnapErr::HeadLength { got } => push_counted(line, b"head length", *got),
        SnapErr::HeadTag => Ok(line.extend_from_slice(b"head tag")?),
        SnapErr::Gas { count } => push_counted(line, b"gas", u64::from(*count)),
        SnapErr::BlockLength { name, want, got } => push_length_err(line, name, *want, *got),
        SnapErr::Bodies(err) => push_set_err(line, err),
        SnapErr::Memory => Ok(()),
    }
}
