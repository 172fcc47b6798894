// The lines of a parameter file.
ghost use Rattle.std.specs.Prelude.{◌≡◌, ◌⊎◌, [], None, Some, Ok, Err, IfOk, IfErr, OnOk, option_map};
ghost use Rattle.std.specs.List.{find, list_all, list_any};
ghost use Rattle.std.specs.Str.{bytes_eq};
ghost use Rattle.store_io.specs.Names.{is_name, is_visible};
ghost use Rattle.text_words.specs.Comments.{begins_comment, lines_in};
ghost use Rattle.text_words.specs.Numbers.{whole_number};
ghost use Rattle.text_words.specs.Pieces.{words_of};
ghost use Rattle.param_file.specs.Known.{known_by, said_by, scan};
ghost use Rattle.param_file.specs.Reading.{default_said, fault_behind, number_fault, said, said_of_row, value_fault};
ghost use Rattle.param_file.specs.Rows.{row_named};
ghost use Rattle.param_file.specs.declared.errors.ParamKind.TheVariants.{Memory};

use crate::errors::{ParamErr, ParamKind};
use crate::names::{ParamName, ROWS, Range};
use std::alloc::Global;
use text_words::{Lines, NumErr, Words, read_whole_number};

/// What a line says: its number from 1, or 0 for a default, the name of a row, and the value.
#[derive(Clone, Copy)]
pub(crate) struct Entry<'a> {
    pub(crate) line: u64,
    pub(crate) name: &'a [u8],
    pub(crate) value: &'a [u8],
}

/// The line that names a row.
pub(crate) fn entry_named<'a>(known: &[Entry<'a>], name: &[u8]) -> Option<Entry<'a>>
    ensures { result ≡ find (λ e. bytes_eq e.name.now name.now) known.now }
{
    known.iter().copied().find(|entry| entry.name == name)
}

/// Whether a line names this.
pub(crate) fn is_named(known: &[Entry<'_>], name: &[u8]) -> bool
    ensures { result ≡ list_any (λ e. bytes_eq e.name.now name.now) known.now }
{
    known.iter().any(|entry| entry.name == name)
}

// The default of a row, on line 0.
fn default_entry(row: ParamName) -> Option<Entry<'static>>
    ensures { option_map said_by result ≡ default_said row }
{
    match row.default() {
        Some(value) => Some(Entry {
            line: 0,
            name: row.as_bytes(),
            value,
        }),
        None => None,
    }
}

/// The line that names a row, or its default.
pub(crate) fn entry_of<'a>(known: &[Entry<'a>], row: ParamName) -> Option<Entry<'a>>
    ensures { option_map said_by result ≡ said_of_row (known_by known.now) row }
{
    match entry_named(known, row.as_bytes()) {
        Some(entry) => Some(entry),
        None => default_entry(row),
    }
}

// The row of a name.
fn row_of(name: &[u8]) -> Option<ParamName>
    ensures { result ≡ row_named name.now }
{
    ROWS.iter().copied().find(|row| row.as_bytes() == name)
}

fn is_comment(word: &[u8]) -> bool
    ensures { result ≡ begins_comment word.now }
{
    !word.is_empty() && word[0] == b'%'
}

// Whether a value lies in a range, and what is wrong with it otherwise.
fn check_value(range: Range, value: &[u8]) -> Result<(), ParamKind>
    ensures ok { OnOk result (value_fault range value.now ≡ None) }
    ensures err { IfErr result (λ kind. value_fault range value.now ≡ Some kind) }
{
    match range {
        Range::Name if is_file_name(value) => Ok(()),
        Range::Name => Err(ParamKind::OutOfRange),
        Range::Number(low, high) => check_number(low, high, value),
    }
}

fn is_file_name(value: &[u8]) -> bool
    ensures { result ≡ is_name value.now }
{
    let len = value.len();
    1 <= len && len <= 200 && all_visible(value)
}

fn all_visible(value: &[u8]) -> bool
    ensures { result ≡ list_all is_visible value.now }
{
    value.iter().all(|b| 33 <= *b && *b <= 126)
}

fn check_number(low: u64, high: u64, value: &[u8]) -> Result<(), ParamKind>
    ensures ok { OnOk result (number_fault low high (whole_number value.now) ≡ None) }
    ensures err { IfErr result (λ kind. number_fault low high (whole_number value.now) ≡ Some kind) }
{
    match read_whole_number(value) {
        Ok(n) if low <= n && n <= high => Ok(()),
        Ok(_) | Err(NumErr::TooLarge) => Err(ParamKind::OutOfRange),
        Err(_) => Err(ParamKind::NotNumber),
    }
}

// What a line says behind the known ones, or nothing where it is passed over.
#[tactic(auto, using(crate::proofs::Maps::stands_by))]
fn read_line<'a>(
    known: &[Entry<'a>],
    number: u64,
    line: &'a [u8],
) -> Result<Option<Entry<'a>>, ParamKind>
    ensures ok { IfOk result (λ entry. option_map said_by entry ≡ said number (words_of line.now)) }
    ensures good { OnOk result (fault_behind (known_by known.now) (words_of line.now) ≡ None) }
    ensures err { IfErr result (λ kind. fault_behind (known_by known.now) (words_of line.now) ≡ Some kind) }
{
    let mut words = Words::new(line);
    let Some(name) = words.next() else {
        return Ok(None);
    };
    if is_comment(name) {
        return Ok(None);
    }
    let row = row_of(name).ok_or(ParamKind::Unknown)?;
    if is_named(known, name) {
        return Err(ParamKind::Repeated);
    }
    let value = words.next().ok_or(ParamKind::NoValue)?;
    check_value(row.range(), value)?;
    Ok(Some(Entry {
        line: number,
        name,
        value,
    }))
}

/// What the lines say, or the first fault of a line.
pub(crate) fn read_lines(alloc: Global, bytes: &[u8]) -> Result<Vec<Entry<'_>>, ParamErr>
    ensures ok { IfOk result (λ known. scan 0 [] (lines_in bytes.now) ≡ Ok (known_by known.items)) }
    ensures err { IfErr result (λ e. (e.kind ≡ Memory) ⊎ (scan 0 [] (lines_in bytes.now) ≡ Err (e.line, e.kind))) }
{
    let mut known = Vec::new(alloc);
    let mut number = 0u64;
    for line in Lines::new(bytes) {
        number += 1;
        let entry = read_line(&known, number, line).map_err(|kind| ParamErr {
            line: number,
            kind,
        })?;
        if let Some(entry) = entry {
            known.push(entry)?;
        }
    }
    Ok(known)
}
