// Numbers in bytes, the lowest byte first.
ghost use Rattle.std.specs.Prelude.{◌≡◌, ◌+◌, ◌++◌, ◌≤◌, length, slice_index, OnOk};
ghost use Rattle.fixed_point.specs.Bytes.{bytes32, bytes64, bytes128, with_signed, word32_at, word64_at, signed64_at};

use crate::Memory;

/// The number in the four bytes from `at` on, the lowest first.
#[tactic(auto, unfolding(crate::specs::Bytes::word32_at))]
pub fn word32(bytes: &[u8], at: usize) -> u32
    requires { at + 4 ≤ length bytes.now }
    ensures { result ≡ word32_at bytes.now at }
{
    u32::from_le_bytes([bytes[at], bytes[at + 1], bytes[at + 2], bytes[at + 3]])
}

/// The number in the eight bytes from `at` on, the lowest first.
#[tactic(auto, unfolding(crate::specs::Bytes::word64_at))]
pub fn word64(bytes: &[u8], at: usize) -> u64
    requires { at + 8 ≤ length bytes.now }
    ensures { result ≡ word64_at bytes.now at }
{
    u64::from_le_bytes([
        bytes[at],
        bytes[at + 1],
        bytes[at + 2],
        bytes[at + 3],
        bytes[at + 4],
        bytes[at + 5],
        bytes[at + 6],
        bytes[at + 7],
    ])
}

/// The signed number whose two's complement stands in the eight bytes from `at` on.
pub fn signed64(bytes: &[u8], at: usize) -> i64
    requires { at + 8 ≤ length bytes.now }
    ensures { result ≡ signed64_at bytes.now at }
{
    word64(bytes, at).cast_signed()
}

/// Appends bytes.
pub fn push_bytes(out: &mut Vec<u8>, bytes: &[u8]) -> Result<(), Memory>
    ensures { OnOk result (out.new.items ≡ out.old.items ++ bytes.now) }
{
    out.extend_from_slice(bytes)?;
    Ok(())
}

/// Appends a number in four bytes, the lowest first.
pub fn push_word32(out: &mut Vec<u8>, n: u32) -> Result<(), Memory>
    ensures { OnOk result (out.new.items ≡ out.old.items ++ bytes32 n) }
{
    out.extend_from_slice(&n.to_le_bytes())?;
    Ok(())
}

/// Appends a number in eight bytes, the lowest first.
pub fn push_word64(out: &mut Vec<u8>, n: u64) -> Result<(), Memory>
    ensures { OnOk result (out.new.items ≡ out.old.items ++ bytes64 n) }
{
    out.extend_from_slice(&n.to_le_bytes())?;
    Ok(())
}

/// Appends a number in sixteen bytes, the lowest first.
pub fn push_word128(out: &mut Vec<u8>, n: u128) -> Result<(), Memory>
    ensures { OnOk result (out.new.items ≡ out.old.items ++ bytes128 n) }
{
    out.extend_from_slice(&n.to_le_bytes())?;
    Ok(())
}

/// Appends three numbers, as those of a position, in four bytes each.
pub fn push_three_words(out: &mut Vec<u8>, numbers: [u32; 3]) -> Result<(), Memory>
    ensures { OnOk result (out.new.items ≡ out.old.items
        ++ bytes32 (slice_index numbers 0) ++ bytes32 (slice_index numbers 1) ++ bytes32 (slice_index numbers 2)) }
{
    push_word32(out, numbers[0])?;
    push_word32(out, numbers[1])?;
    push_word32(out, numbers[2])
}

/// Appends three signed numbers, as those of a momentum, in eight bytes each, as their two's complement.
pub fn push_three_signed(out: &mut Vec<u8>, numbers: [i64; 3]) -> Result<(), Memory>
    ensures { OnOk result (out.new.items ≡ with_signed out.old.items numbers) }
{
    push_bytes(out, &numbers[0].to_le_bytes())?;
    push_bytes(out, &numbers[1].to_le_bytes())?;
    push_bytes(out, &numbers[2].to_le_bytes())
}
