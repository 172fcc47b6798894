// Whole numbers as digits, read and written.
ghost use Rattle.std.specs.Prelude.{◌≡◌, ◌<◌, ◌^◌, ◌++◌, OnOk, OnErr, decimal};
ghost use Rattle.std.specs.Char.{is_ascii_digit};
ghost use Rattle.std.specs.List.{list_all};
ghost use Rattle.std.specs.Option.{SomeIff};
ghost use Rattle.std.specs.Fmt.{signed_decimal};
ghost use Rattle.text_words.specs.Numbers.{value_of, whole_number};

use fixed_point::Memory;
use itoa::Buffer;

/// Why bytes are no whole number of 64 bits: there is none, one of them isn't a digit, or all are digits and
/// the value is above 2^64 - 1.
#[derive(Clone, Copy, Debug, PartialEq, Eq)]
pub enum NumErr {
    Empty,
    NotDigit,
    TooLarge,
}

fn all_digits(bytes: &[u8]) -> bool
    ensures { result ≡ list_all is_ascii_digit bytes.now }
{
    bytes.iter().all(|b| b.is_ascii_digit())
}

// The value of digits, where it has 64 bits.
fn digits_value(bytes: &[u8]) -> Option<u64>
    ensures { SomeIff result (value_of bytes.now < 2 ^ 64) (value_of bytes.now) }
{
    let mut value = 0u64;
    for b in bytes {
        let digit = u64::from(b.saturating_sub(b'0'));
        value = value.checked_mul(10)?.checked_add(digit)?;
    }
    Some(value)
}

/// The number that at least one digit spells, leading zeros allowed.
pub fn read_whole_number(bytes: &[u8]) -> Result<u64, NumErr>
    ensures { result ≡ whole_number bytes.now }
{
    if bytes.is_empty() {
        return Err(NumErr::Empty);
    }
    if !all_digits(bytes) {
        return Err(NumErr::NotDigit);
    }
    digits_value(bytes).ok_or(NumErr::TooLarge)
}

/// Appends the decimal text, with `-` before it where the number is negative.
pub fn push_number(out: &mut Vec<u8>, n: i128) -> Result<(), Memory>
    ensures ok { OnOk result (out.new.items ≡ out.old.items ++ signed_decimal n) }
    ensures err { OnErr result (out.new.items ≡ out.old.items) }
{
    Ok(out.extend_from_slice(Buffer::new().format(n).as_bytes())?)
}

/// Appends the decimal text.
pub fn push_unsigned(out: &mut Vec<u8>, n: u128) -> Result<(), Memory>
    ensures ok { OnOk result (out.new.items ≡ out.old.items ++ decimal n) }
    ensures err { OnErr result (out.new.items ≡ out.old.items) }
{
    Ok(out.extend_from_slice(Buffer::new().format(n).as_bytes())?)
}
