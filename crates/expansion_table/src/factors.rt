// How many of the ticks between two ticks count for kicks and for drifts.
ghost use Rattle.std.specs.Prelude.{◌≡◌, ◌≤◌, ◌<◌, ◌+◌, ◌-◌, ◌*◌, ◌^◌, IfSome, Some, length};
ghost use Rattle.std.specs.Option.{option_copied};
ghost use Rattle.nbody_model.specs.Tables.{IsExpansion, Reaches, expansion_at};
ghost use Rattle.nbody_model.specs.Factors.{drift_factor, factor, kick_factor};
ghost use Rattle.expansion_table.specs.Columns.{sum_in};

use crate::table::Expansion;

/// A column of the table.
#[derive(Clone, Copy)]
enum Column {
    Kicks,
    Drifts,
}

// The sum of a column in the entry of an index.
fn sum_of(table: &Expansion, column: Column, index: usize) -> u64
    requires { index < length table.now.entries }
    ensures { result ≡ sum_in column (expansion_at table.now index) }
{
    let entry = &table.entries[index];
    match column {
        Column::Kicks => entry.kick,
        Column::Drifts => entry.drift,
    }
}

// The sum of a column at a tick that the table reaches.
fn sum_at(table: &Expansion, column: Column, tick: u64) -> u64
    requires { Reaches table.now tick }
    ensures value { result ≡ factor (sum_in column) (Some table.now) tick }
    ensures sound { IsExpansion table.now }
{
    let index = (tick >> table.s) as usize;
    let rest = tick - ((index as u64) << table.s);
    let here = sum_of(table, column, index);
    if rest == 0 {
        return here;
    }
    let next = sum_of(table, column, index + 1);
    here + ((u128::from(next - here) * u128::from(rest)) >> table.s) as u64
}

// What the sum of a column goes up by from one tick to a later one.
fn between(table: Option<&Expansion>, column: Column, from: u64, to: u64) -> u64
    requires order { from ≤ to }
    requires reach { IfSome (option_copied table) (λ e. Reaches e to) }
    ensures value { result ≡ factor (sum_in column) (option_copied table.entry) to - factor (sum_in column) (option_copied table.entry) from }
    ensures small { result ≤ to - from }
{
    match table {
        Some(table) => sum_at(table, column, to) - sum_at(table, column, from),
        None => to - from,
    }
}

/// How many of the ticks from one tick to a later one count for kicks: all, or what the table says.
pub fn kick_factor(table: Option<&Expansion>, from: u64, to: u64) -> u64
    requires order { from ≤ to }
    requires reach { IfSome (option_copied table) (λ e. Reaches e to) }
    ensures value { result ≡ kick_factor (option_copied table.entry) from to }
    ensures small { result ≤ to - from }
{
    between(table, Column::Kicks, from, to)
}

/// How many of the ticks from one tick to a later one count for drifts: all, or what the table says.
pub fn drift_factor(table: Option<&Expansion>, from: u64, to: u64) -> u64
    requires order { from ≤ to }
    requires reach { IfSome (option_copied table) (λ e. Reaches e to) }
    ensures value { result ≡ drift_factor (option_copied table.entry) from to }
    ensures small { result ≤ to - from }
{
    between(table, Column::Drifts, from, to)
}
