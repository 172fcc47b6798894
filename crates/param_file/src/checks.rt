// The three checks after the last line.
ghost use Rattle.std.specs.Prelude.{◌≡◌, ℕ, ◌≤◌, ◌<◌, true, false, IfSome, IfNone, IfOk, IfErr, OnOk, None, Some};
ghost use Rattle.std.specs.List.{find};
ghost use Rattle.param_file.specs.Checks.{AreApart, ClashesAt, IsBinFault, IsClashFault, IsMissingFault};
ghost use Rattle.param_file.specs.Known.{known_by};
ghost use Rattle.param_file.specs.Reading.{is_absent, line_of_row, missing, number_of_row, word_of_row, IsFirstClash, line_of_name};
ghost use Rattle.param_file.specs.Settings.{are_clashing, clash_at, clash_if_any, is_base_of};
ghost use Rattle.param_file.specs.declared.errors.ParamKind.TheVariants.{Clash, Missing};
ghost use Rattle.param_file.specs.declared.names.ParamName.TheVariants.{LowBin, TopBin};

use crate::entries::{Entry, entry_of, is_named};
use crate::errors::{ParamErr, ParamKind};
use crate::names::{NAME_ROWS, ParamName, ROWS};
use text_words::read_whole_number;

// Whether some line has to name this row, and none does.
#[tactic(auto, using(crate::proofs::Maps::stands_by), unfolding(crate::specs::Reading::is_absent))]
fn is_absent(known: &[Entry<'_>], row: ParamName) -> bool
    ensures { result ≡ is_absent (known_by known.now) row }
{
    row.is_required() && !is_named(known, row.as_bytes())
}

// The first of the rows that is absent.
fn first_absent(known: &[Entry<'_>], rows: &[ParamName]) -> Option<ParamName>
    ensures { result ≡ find (is_absent (known_by known.now)) rows.now }
{
    rows.iter().copied().find(|row| is_absent(known, *row))
}

/// The number of a row, or 0 where it has none.
pub(crate) fn number_of(known: &[Entry<'_>], row: ParamName) -> u64
    ensures { result ≡ number_of_row (known_by known.now) row }
{
    match entry_of(known, row) {
        Some(entry) => read_whole_number(entry.value).unwrap_or(0),
        None => 0,
    }
}

// The line of a row, or 0 where no line names it.
fn line_of(known: &[Entry<'_>], row: ParamName) -> u64
    ensures { result ≡ line_of_row (known_by known.now) row }
{
    match entry_of(known, row) {
        Some(entry) => entry.line,
        None => 0,
    }
}

// Whether the second begins with the first followed by `_`.
fn is_base_of(base: &[u8], name: &[u8]) -> bool
    ensures { result ≡ is_base_of base.now name.now }
{
    base.len() < name.len() && &name[..base.len()] == base && name[base.len()] == b'_'
}

// Whether two names are one, or one of them may be a numbered name of the other.
fn is_clash(first: &[u8], second: &[u8]) -> bool
    ensures { result ≡ are_clashing first.now second.now }
{
    first == second || is_base_of(first, second) || is_base_of(second, first)
}

// Whether the names of two rows clash.
fn rows_clash(known: &[Entry<'_>], row: ParamName, other: ParamName) -> bool
    ensures { result ≡ clash_if_any (word_of_row (known_by known.now) row) (word_of_row (known_by known.now) other) }
{
    match (entry_of(known, row), entry_of(known, other)) {
        (Some(first), Some(second)) => is_clash(first.value, second.value),
        _ => false,
    }
}

// The greater line of this row of names and the first behind it that clashes with it.
fn clash_behind(known: &[Entry<'_>], at: usize) -> Option<u64>
    requires { at < 9 }
    ensures some { IfSome result (λ line. ClashesAt (known_by known.now) at line) }
    ensures none { IfNone result ((k : ℕ) → at < k → k < 9 → clash_at (word_of_row (known_by known.now)) at k ≡ false) }
{
    for other in at + 1..NAME_ROWS.len() {
        if rows_clash(known, NAME_ROWS[at], NAME_ROWS[other]) {
            return Some(line_of(known, NAME_ROWS[at]).max(line_of(known, NAME_ROWS[other])));
        }
    }
    None
}

/// Whether no required row is missing.
pub(crate) fn check_missing(known: &[Entry<'_>]) -> Result<(), ParamErr>
    ensures ok { OnOk result (missing (known_by known.now) ≡ None) }
    ensures err { IfErr result (λ e. IsMissingFault (known_by known.now) e.line e.kind) }
{
    match first_absent(known, &ROWS) {
        Some(row) => Err(ParamErr {
            line: 0,
            kind: ParamKind::Missing(row),
        }),
        None => Ok(()),
    }
}

/// Whether `LowBin` isn't above `TopBin`.
pub(crate) fn check_bins(known: &[Entry<'_>]) -> Result<(), ParamErr>
    ensures ok { OnOk result (number_of_row (known_by known.now) LowBin ≤ number_of_row (known_by known.now) TopBin) }
    ensures err { IfErr result (λ e. IsBinFault (known_by known.now) e.line e.kind) }
{
    if number_of(known, ParamName::LowBin) <= number_of(known, ParamName::TopBin) {
        return Ok(());
    }
    Err(ParamErr {
        line: line_of(known, ParamName::LowBin).max(line_of(known, ParamName::TopBin)),
        kind: ParamKind::OutOfRange,
    })
}

/// Whether no two names clash.
pub(crate) fn check_clash(known: &[Entry<'_>]) -> Result<(), ParamErr>
    ensures ok { OnOk result (AreApart (known_by known.now)) }
    ensures err { IfErr result (λ e. IsClashFault (known_by known.now) e.line e.kind) }
{
    for at in 0..NAME_ROWS.len() {
        if let Some(line) = clash_behind(known, at) {
            return Err(ParamErr {
                line,
                kind: ParamKind::Clash,
            });
        }
    }
    Ok(())
}
