// The walk by the opening rule and the force of pairs.
ghost use Rattle.std.specs.Prelude.{◌≡◌, OnOk, IfOk, option_copied};
ghost use Rattle.rank_walk.specs.Seats.{EachSeat, SomeSeat};
ghost use Rattle.rank_walk.specs.Walkers.{AsksNow, CountsNow, IsKeptFor, WalksOn};

use crate::{NodeLaw, Source, Walked, Walker};
use ewald_table::Table;
use fixed_point::Memory;
use nbody_model::Setup;
use node_moments::Moments;
use pair_law::{accept_of, force_of};
use std::alloc::Global;

/// A walk by the opening rule and the force of pairs.
pub fn walk_by_rule<S: Source>(
    walker: &mut Walker,
    alloc: Global,
    setup: &Setup,
    table: Option<&Table>,
    source: &S,
) -> Result<Walked, Memory>
    requires gravity { S.gravity source.now ≡ record { setup = setup.now; table = option_copied table } }
    requires rank { SomeSeat (S.serves source.now) (IsKeptFor walker.old) }
    ensures state { OnOk result (EachSeat (S.serves source.now) (WalksOn walker.old walker.new)) }
    ensures size { IfOk result (λ v. EachSeat (S.serves source.now) (CountsNow walker.old v.size)) }
    ensures asks { IfOk result (λ v. EachSeat (S.serves source.now) (AsksNow walker.old v.asks.items)) }
{
    let law = NodeLaw {
        accept: |a: &Moments, b: &Moments| accept_of(setup, a, b),
        force: |a: &Moments, b: &Moments| force_of(setup, table, a, b),
    };
    walker.walk(alloc, &law, source)
}
