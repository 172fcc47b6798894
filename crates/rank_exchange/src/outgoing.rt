// What a rank sends to all others.
ghost use Rattle.std.specs.Prelude.{◌≡◌, ◌≤◌, ◌<◌, ◌==◌, ◌++◌, ◌∷◌, [], if◌then◌else◌, not, IfOk, OnOk, filter, map};
ghost use Rattle.std.specs.List.{AllByRecursion, flat_map, range_with_len};
ghost use Rattle.nbody_model.specs.Bodies.{BodyData};
ghost use Rattle.rank_curve_laws.specs.Along.{keys_along};
ghost use Rattle.rank_laws.specs.Contents.{members_sent, sums_sent, wanted};
ghost use Rattle.rank_laws.specs.Machine.{Parts, Rank as RankOf, Sums, Want, ask, message as without_cell};
ghost use Rattle.rank_laws.specs.Whole.{Whole, own, rules_of};
ghost use Rattle.rank_walk.specs.Seats.{Seat};
ghost use Rattle.rank_walk.specs.Walkers.{IsThrough, as_sent};
ghost use Rattle.rank_exchange.specs.Came.{HandsOut, home_totals, kept_from};
ghost use Rattle.rank_exchange.specs.Members.{AreOwn};
ghost use Rattle.rank_exchange.specs.Messages.{AreRanks, AreToEach, filled};
ghost use Rattle.rank_exchange.specs.Moments.{Moment};

use crate::contents::{Listed, Load, Summed};
use crate::keyed::Keyed;
use crate::mail::{parts, want};
use crate::message::Message;
use crate::shares::Kept;
use cell_space::Cell;
use domain_split::{Bounds, home};
use fixed_point::Memory;
use nbody_model::EventKind;
use rank_walk::{Summed as Walked, Walker};
use std::alloc::Global;

/// Puts a rank behind others, unless it is this one.
fn push_other(number: u16, rank: u16, others: &mut Vec<u16>) -> Result<(), Memory>
    ensures { OnOk result (others.new.items ≡ (if rank == number then others.old.items else others.old.items ++ rank ∷ [])) }
{
    if rank == number {
        return Ok(());
    }
    others.push(rank)?;
    Ok(())
}

/// All ranks but one, ascending.
pub(crate) fn others(alloc: Global, number: u16, ranks: u32) -> Result<Vec<u16>, Memory>
    requires { ranks ≤ 256 }
    ensures others { IfOk result (λ to. to.items ≡ filter (λ q. not (q == number)) (range_with_len 0 ranks)) }
    ensures ranks { IfOk result (λ to. AllByRecursion (λ q. q < ranks) to.items) }
{
    let mut others = Vec::with_capacity(alloc, ranks as usize)?;
    for rank in 0..ranks as u16 {
        push_other(number, rank, &mut others)?;
    }
    Ok(others)
}

/// The wants of a home, for each of these ranks.
pub(crate) fn all_wants(
    alloc: Global,
    totals: &[Summed],
    home: u16,
    to: &[u16],
) -> Result<Vec<Message>, Memory>
    ensures { (w : Whole) → totals.now ≡ home_totals w home → IfOk result (λ out. AreToEach w Want home to.now out.items) }
{
    let mut sent = Vec::with_capacity(alloc, to.len())?;
    for rank in to {
        sent.push(want(alloc, totals, home, *rank)?)?;
    }
    Ok(sent)
}

/// The parts that a home owes to each of these ranks.
pub(crate) fn all_parts(
    alloc: Global,
    sums: &[Keyed],
    home: u16,
    to: &[u16],
) -> Result<Vec<Message>, Memory>
    ensures { (m : Moment) → HandsOut m sums.now → m.rank ≡ home → AreRanks m.whole to.now → IfOk result (λ out. AreToEach m.whole Parts home to.now out.items) }
{
    let mut sent = Vec::with_capacity(alloc, to.len())?;
    for rank in to {
        sent.push(parts(alloc, sums, home, *rank)?)?;
    }
    Ok(sent)
}

/// A cell with what a walk's interactions did to it, as it is sent.
fn summed(walked: &Walked) -> Summed
    ensures { result ≡ record { cell = walked.now.cell; sum = walked.now.sum } }
{
    Summed {
        cell: walked.cell,
        sum: walked.sum,
    }
}

/// Such cells, as they are sent.
fn all_summed(alloc: Global, walked: &[Walked]) -> Result<Vec<Summed>, Memory>
    ensures { IfOk result (λ sums. sums.items ≡ as_sent walked.now) }
{
    let mut sums = Vec::with_capacity(alloc, walked.len())?;
    for entry in walked {
        sums.push(summed(entry))?;
    }
    Ok(sums)
}

/// The sums of a rank's walk on the cells of a home.
pub(crate) fn sums_for(alloc: Global, walker: &Walker, home: u16) -> Result<Vec<Summed>, Memory>
    requires { (z : Seat) × ((s : RankOf) × IsThrough z s walker.now) }
    ensures { (z : Seat) (s : RankOf) → IsThrough z s walker.now → IfOk result (λ sums. sums.items ≡ sums_sent z.whole z.rank home) }
{
    let walked = walker.sums_to(alloc, home)?;
    all_summed(alloc, &walked)
}

/// The sums of a rank's walk for a home.
fn sums(alloc: Global, walker: &Walker, rank: u16, home: u16) -> Result<Message, Memory>
    requires { (z : Seat) × ((s : RankOf) × IsThrough z s walker.now) }
    ensures { (z : Seat) (s : RankOf) → IsThrough z s walker.now → z.rank ≡ rank → IfOk result (λ sent. sent ≡ filled z.whole (without_cell Sums rank home)) }
{
    let sums = sums_for(alloc, walker, home)?;
    Ok(Message {
        kind: EventKind::Sums,
        from: rank,
        to: home,
        load: Load::Sums(sums),
    })
}

/// The sums of a rank's walk, for each of these ranks.
pub(crate) fn all_sums(
    alloc: Global,
    walker: &Walker,
    rank: u16,
    to: &[u16],
) -> Result<Vec<Message>, Memory>
    requires { (z : Seat) × ((s : RankOf) × IsThrough z s walker.now) }
    ensures { (z : Seat) (s : RankOf) → IsThrough z s walker.now → z.rank ≡ rank → IfOk result (λ out. AreToEach z.whole Sums rank to.now out.items) }
{
    let mut sent = Vec::with_capacity(alloc, to.len())?;
    for home in to {
        sent.push(sums(alloc, walker, rank, *home)?)?;
    }
    Ok(sent)
}

/// An ask for a cell, to its home.
fn ask(cell: &Cell, rank: u16, bounds: &Bounds) -> Message
    ensures { (w : Whole) → w.keys ≡ keys_along bounds.now → result ≡ filled w (ask (rules_of w) rank cell.now) }
{
    Message {
        kind: EventKind::Ask,
        from: rank,
        to: home(cell, bounds),
        load: Load::Cell(*cell),
    }
}

/// An ask for each of these cells.
pub(crate) fn all_asks(
    alloc: Global,
    cells: &[Cell],
    rank: u16,
    bounds: &Bounds,
) -> Result<Vec<Message>, Memory>
    ensures { (w : Whole) → w.keys ≡ keys_along bounds.now → IfOk result (λ sent. sent.items ≡ map (λ c. filled w (ask (rules_of w) rank c)) cells.now) }
{
    let mut sent = Vec::with_capacity(alloc, cells.len())?;
    for cell in cells {
        sent.push(ask(cell, rank, bounds))?;
    }
    Ok(sent)
}

/// A member, with the rank from which it came.
fn kept(entry: &Listed, from: u16) -> Kept
    ensures { result ≡ kept_from from entry.now }
{
    Kept {
        from,
        entry: *entry,
    }
}

/// Puts members that came from a rank behind those that are kept.
pub(crate) fn keep_members(
    members: &[Listed],
    from: u16,
    kept_before: &mut Vec<Kept>,
) -> Result<(), Memory>
    ensures { OnOk result (kept_before.new.items ≡ kept_before.old.items ++ map (kept_from from) members.now) }
{
    for entry in members {
        kept_before.push(kept(entry, from))?;
    }
    Ok(())
}
