// What bodies get: the parts of all homes, added up by id.
ghost use Rattle.std.specs.Prelude.{◌≡◌, IfOk, map};
ghost use Rattle.nbody_model.specs.Bodies.{BodyData};
ghost use Rattle.rank_laws.specs.Kept.{given_up};
ghost use Rattle.rank_exchange.specs.Came.{GivesUp, HasParts};
ghost use Rattle.rank_exchange.specs.Handed.{by_id};
ghost use Rattle.rank_exchange.specs.Keyed.{Climbs, keys_in};
ghost use Rattle.rank_exchange.specs.Moments.{Moment, state_at};

use crate::contents::Given;
use crate::handed::sum_at;
use crate::keyed::{Keyed, sums_of};
use fixed_point::{Memory, V3};
use std::alloc::Global;

/// What a body got at a home, with its id for a key.
fn by_id(part: &Given) -> Keyed
    ensures { result ≡ by_id part.now }
{
    Keyed {
        key: part.id as u128,
        sum: part.sum,
    }
}

/// Some parts with their ids for keys.
fn all_by_id(alloc: Global, parts: &[Given]) -> Result<Vec<Keyed>, Memory>
    ensures { IfOk result (λ all. all.items ≡ map by_id parts.now) }
{
    let mut all = Vec::with_capacity(alloc, parts.len())?;
    for part in parts {
        all.push(by_id(part))?;
    }
    Ok(all)
}

/// What each body of a rank got at all homes together, by id: its own parts, and those that came from all others.
pub(crate) fn gathered(
    alloc: Global,
    mut own: Vec<Given>,
    others: &[Given],
) -> Result<Vec<Keyed>, Memory>
    requires { (m : Moment) × HasParts m own.items others.now }
    ensures sums { (m : Moment) → HasParts m own.items others.now → IfOk result (λ sums. GivesUp m sums.items) }
    ensures climbs { IfOk result (λ sums. Climbs (keys_in sums.items)) }
{
    own.extend_from_slice(others)?;
    let all = all_by_id(alloc, &own)?;
    let sums = sums_of(alloc, all)?;
    Ok(sums)
}

/// What the body of an id got in all.
pub(crate) fn force_of(sums: &[Keyed], id: u64) -> V3
    requires { Climbs (keys_in sums.now) }
    ensures { (m : Moment) (b : BodyData) → GivesUp m sums.now → b.id ≡ id → result ≡ given_up m.whole m.rank (state_at m) b }
{
    sum_at(sums, id as u128)
}
