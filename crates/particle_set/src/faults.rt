// The refusals of rows that stand ascending in id.
ghost use Rattle.std.specs.Prelude.{◌≡◌, ◌<◌, ◌≤◌, ◌*◌, ◌^◌, ℕ, length, All, IfSome, IfOk, IfNone};
ghost use Rattle.std.specs.List.Sorted.{IsStrictlyIncreasing, IsNonDecreasingBy};
ghost use Rattle.particle_set.specs.Rows.{HasMass, IsLeastId, IsMassless, IsRepeated, ids, total_mass};

use crate::Row;

// The first id that equals the one before it.
pub(crate) fn first_repeated(rows: &[Row]) -> Option<u64>
    requires { IsNonDecreasingBy (λ r. r.id) rows.now }
    ensures none { IfNone result (IsStrictlyIncreasing (ids rows.now)) }
    ensures some { IfSome result (IsLeastId (IsRepeated rows.now) rows.now) }
{
    for i in 1..rows.len() {
        if rows[i - 1].id == rows[i].id {
            return Some(rows[i].id);
        }
    }
    None
}

// The first id of mass 0.
pub(crate) fn first_massless(rows: &[Row]) -> Option<u64>
    requires { IsNonDecreasingBy (λ r. r.id) rows.now }
    ensures none { IfNone result (All HasMass rows.now) }
    ensures some { IfSome result (IsLeastId IsMassless rows.now) }
{
    for row in rows {
        if row.mass == 0 {
            return Some(row.id);
        }
    }
    None
}

// The masses added up.
pub(crate) fn mass_of(rows: &[Row]) -> u64
    requires { length rows.now ≤ 1048576 }
    ensures { result ≡ total_mass rows.now }
{
    let mut sum = 0u64;
    for row in rows {
        sum += u64::from(row.mass);
    }
    sum
}
