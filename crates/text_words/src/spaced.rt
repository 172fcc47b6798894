// Numbers behind a line, each after a space.
ghost use Rattle.std.specs.Prelude.{◌≡◌, ◌++◌, OnOk, decimal};
ghost use Rattle.std.specs.Fmt.{signed_decimal};
ghost use Rattle.text_words.specs.Spaced.{spaced};

use crate::number::{push_number, push_unsigned};
use fixed_point::Memory;

/// Puts a number behind a line, after a space.
pub fn push_spaced(line: &mut Vec<u8>, n: u64) -> Result<(), Memory>
    ensures { OnOk result (line.new.items ≡ line.old.items ++ spaced (decimal n)) }
{
    line.push(b' ')?;
    push_unsigned(line, u128::from(n))
}

/// Puts a signed number behind a line, after a space.
pub fn push_spaced_signed(line: &mut Vec<u8>, n: i128) -> Result<(), Memory>
    ensures { OnOk result (line.new.items ≡ line.old.items ++ spaced (signed_decimal n)) }
{
    line.push(b' ')?;
    push_number(line, n)
}
