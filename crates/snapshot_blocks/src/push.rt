// Writes blocks.
ghost use Rattle.std.specs.Prelude.{◌≡◌, ◌<◌, ◌≤◌, ◌+◌, ◌-◌, ◌^◌, ◌++◌, length, take, vec_len, OnOk, OnErr};
ghost use Rattle.fixed_point.specs.Bytes.{bytes32, framed};
ghost use Rattle.snapshot_blocks.specs.Opening.{opening};

use fixed_point::Memory;

fn opening_bytes(name: [u8; 4], len: u32) -> [u8; 20]
    requires { len + 8 < 2 ^ 32 }
    ensures { result ≡ opening name len }
{
    let skip = (len + 8).to_le_bytes();
    let first = len.to_le_bytes();
    [
        8, 0, 0, 0, name[0], name[1], name[2], name[3], skip[0], skip[1], skip[2], skip[3], 8, 0,
        0, 0, first[0], first[1], first[2], first[3],
    ]
}

/// Appends what stands before the `len` bytes of a block's contents. On an error nothing is appended.
pub fn open_block(out: &mut Vec<u8>, name: [u8; 4], len: u32) -> Result<(), Memory>
    requires { len + 8 < 2 ^ 32 }
    ensures ok { OnOk result (out.new.items ≡ out.old.items ++ opening name len) }
    ensures err { OnErr result (out.new.items ≡ out.old.items) }
{
    out.extend_from_slice(&opening_bytes(name, len))?;
    Ok(())
}

/// Appends what stands behind the `len` bytes of a block's contents. On an error nothing is appended.
pub fn close_block(out: &mut Vec<u8>, len: u32) -> Result<(), Memory>
    ensures ok { OnOk result (out.new.items ≡ out.old.items ++ bytes32 len) }
    ensures err { OnErr result (out.new.items ≡ out.old.items) }
{
    out.extend_from_slice(&len.to_le_bytes())?;
    Ok(())
}

// Appends a block; on an error perhaps a part of it.
fn push_parts(out: &mut Vec<u8>, name: [u8; 4], contents: &[u8]) -> Result<(), Memory>
    requires { length contents.now ≤ 2 ^ 32 - 9 }
    ensures ok { OnOk result (out.new.items ≡ out.old.items ++ framed name contents.now) }
    ensures kept { take (vec_len out.old) out.new.items ≡ out.old.items }
{
    let len = contents.len() as u32;
    open_block(out, name, len)?;
    out.extend_from_slice(contents)?;
    close_block(out, len)
}

/// Appends a block with these contents. On an error nothing is appended.
pub fn push_block(out: &mut Vec<u8>, name: [u8; 4], contents: &[u8]) -> Result<(), Memory>
    requires { length contents.now ≤ 2 ^ 32 - 9 }
    ensures ok { OnOk result (out.new.items ≡ out.old.items ++ framed name contents.now) }
    ensures err { OnErr result (out.new.items ≡ out.old.items) }
{
    let before = out.len();
    let pushed = push_parts(out, name, contents);
    if pushed.is_err() {
        out.truncate(before);
    }
    pushed
}
