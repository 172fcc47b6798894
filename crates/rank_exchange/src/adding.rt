// The totals of the cells of a home.
ghost use Rattle.std.specs.Prelude.{◌≡◌, IfOk, OnOk, map};
ghost use Rattle.rank_exchange.specs.Moments.{Moment};
ghost use Rattle.rank_exchange.specs.Came.{HandsOut, HasMembers, HasSums, home_totals};
ghost use Rattle.rank_exchange.specs.Keyed.{Climbs as KeysClimb, keys_in};
ghost use Rattle.rank_exchange.specs.Shares.{HaveIds, shared_in};
ghost use Rattle.rank_exchange.specs.Sums.{Climbs, cells_in};
ghost use Rattle.hilbert_keys.specs.Curve.{IsCell};
ghost use Rattle.std.specs.List.{AllByRecursion};
ghost use Rattle.std.specs.List.Sorted.{IsPermutation};

use crate::contents::Summed;
use crate::keyed::{Keyed, sums_of};
use crate::shares::{Kept, shares_of};
use crate::sums::totals_of;
use fixed_point::Memory;
use std::alloc::Global;

/// The cells of a rank's home that take part in an interaction, in order, with their totals: of its own sums and of those that
/// came from all others.
pub(crate) fn home_totals(
    alloc: Global,
    mut own: Vec<Summed>,
    others: &[Summed],
) -> Result<Vec<Summed>, Memory>
    requires { (m : Moment) × HasSums m own.items others.now }
    ensures totals { (m : Moment) → HasSums m own.items others.now → IfOk result (λ totals. totals.items ≡ home_totals m.whole m.rank) }
    ensures climbs { IfOk result (λ totals. Climbs (cells_in totals.items)) }
    ensures cells { IfOk result (λ totals. AllByRecursion IsCell (cells_in totals.items)) }
{
    own.extend_from_slice(others)?;
    let totals = totals_of(alloc, &own)?;
    Ok(totals)
}

/// The shares of all members that a home has in the totals of its cells, each with the rank from which the member came and its
/// id, in some order.
pub(crate) fn home_shares(
    alloc: Global,
    totals: &[Summed],
    kept: &[Kept],
) -> Result<Vec<Keyed>, Memory>
    requires { (m : Moment) × HasMembers m totals.now kept.now }
    ensures shares { IfOk result (λ shares. IsPermutation (map (shared_in totals.now kept.now) kept.now) shares.items) }
    ensures ids { OnOk result (HaveIds kept.now) }
{
    shares_of(alloc, totals, kept)
}

/// The sums of these shares by rank and id, of which each rank gets those with its number.
pub(crate) fn home_parts(
    alloc: Global,
    totals: &[Summed],
    kept: &[Kept],
) -> Result<Vec<Keyed>, Memory>
    requires { (m : Moment) × HasMembers m totals.now kept.now }
    ensures parts { (m : Moment) → HasMembers m totals.now kept.now → IfOk result (λ sums. HandsOut m sums.items) }
    ensures climbs { IfOk result (λ sums. KeysClimb (keys_in sums.items)) }
{
    let shares = home_shares(alloc, totals, kept)?;
    let sums = sums_of(alloc, shares)?;
    Ok(sums)
}
