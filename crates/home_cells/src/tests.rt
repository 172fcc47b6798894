ghost use Rattle.std.specs.Prelude.{◌≡◌, ◌≤◌, ◌<◌, IfOk, length, slice_index_or};
ghost use Rattle.nbody_model.specs.Bodies.{BodyData, IsValid};
ghost use Rattle.nbody_model.specs.Setups.{AreSoftenings};
ghost use Rattle.rank_laws.specs.Owners.{handed_to};
ghost use Rattle.rank_curve_laws.specs.Along.{IsDivision};
ghost use Rattle.home_cells.specs.Found.{KeepsAll, Sends};

use super::*;
use cell_space::Cell;
use domain_split::{Bounds, home, split};
use model_laws::laws::bodies::keep_limits;
use nbody_model::{Body, Motion};
use octree_build::{Tree, build};
use std::alloc::Global;
use std::test::Fail;

const SOFT: [u32; 6] = [256, 256, 512, 1024, 2048, 4096];

// Bodies, their owners, the bounds of ranks and softening lengths.
#[derive(Clone, Copy)]
struct Division<'a> {
    bodies: &'a [Body],
    owners: &'a [u16],
    bounds: &'a Bounds,
    soft: &'a [u32; 6],
}

// Bodies at these positions with the ids 1, 2 and so on, and masses and kinds in turn.
fn bodies_at(alloc: Global, positions: &[[u32; 3]]) -> Result<Vec<Body>, Fail>
    requires { length positions.now ≤ 1000 }
    ensures { IfOk result (λ bodies. IsValid bodies.items) }
{
    let mut bodies = Vec::new(alloc);
    for i in 0..positions.len() {
        let motion = Motion::new(positions[i], [0, 0, 0]).ok_or("range")?;
        let part = i as u32 % 5;
        bodies.push(Body {
            id: i as u64 + 1,
            kind: part as u8 + 1,
            mass: part + 1,
            motion,
        })?;
    }
    Ok(bodies)
}

// The body at a place.
fn body_at(bodies: &[Body], i: usize) -> Body
    requires { i < length bodies.now }
    ensures { (d : BodyData) → result ≡ slice_index_or bodies.now i d }
{
    let body = &bodies[i];
    *body
}

// The bodies of a rank.
fn own_of(alloc: Global, bodies: &[Body], owners: &[u16], rank: u32) -> Result<Vec<Body>, Fail>
    requires { length owners.now ≡ length bodies.now }
    ensures { IfOk result (λ own. own.items ≡ handed_to bodies.now owners.now rank) }
{
    let mut own = Vec::new(alloc);
    for i in 0..bodies.len() {
        if owners[i] as u32 == rank {
            own.push(body_at(bodies, i))?;
        }
    }
    Ok(own)
}

// What a rank sends to a home.
fn sent_by(alloc: Global, all: &Division, rank: u32, to: u16) -> Result<Vec<Entry>, Fail>
    requires bodies { IsValid all.now.bodies.now }
    requires soft { AreSoftenings all.now.soft.now }
    requires division { IsDivision all.now.bodies.now all.now.owners.now all.now.bounds.now }
    requires to { to < length all.now.bounds.now }
    ensures { IfOk result (λ sent. Sends all.now.bodies.now all.now.owners.now all.now.bounds.now all.now.soft.now to rank sent.items) }
{
    keep_limits(all.bodies);
    let own = own_of(alloc, all.bodies, all.owners, rank)?;
    let tree = build(alloc, &own, all.soft)?;
    Ok(entries_for(alloc, &tree, all.bounds, to)?)
}

// The table of a home.
fn table_of(alloc: Global, all: &Division, to: u16) -> Result<HomeTable, Fail>
    requires bodies { IsValid all.now.bodies.now }
    requires soft { AreSoftenings all.now.soft.now }
    requires division { IsDivision all.now.bodies.now all.now.owners.now all.now.bounds.now }
    requires to { to < length all.now.bounds.now }
    ensures { IfOk result (λ t. KeepsAll all.now.bodies.now all.now.owners.now all.now.bounds.now all.now.soft.now to (length all.now.bounds.now) t) }
{
    let mut table = HomeTable::new(alloc);
    for rank in 0..all.bounds.ranks() {
        let sent = sent_by(alloc, all, rank, to)?;
        table.keep(alloc, sent)?;
    }
    Ok(table)
}

// What plain filters find of a cell: how many bodies and which mass, weighed distances on the first axis, least and greatest
// coordinates on the second, the greatest softening length, and the children with bodies, as bits.
#[derive(Drop)]
struct Seen {
    count: u32,
    mass: u64,
    first: u128,
    low: u32,
    high: u32,
    soft: u32,
    children: u8,
}

fn with_body(seen: &Seen, cell: &Cell, body: &Body) -> Seen {
    let pos = body.motion.pos();
    let mut children = seen.children;
    for k in 0..8u8 {
        if cell.level < 32 && cell.child(k).contains(pos) {
            children |= 1 << k;
        }
    }
    Seen {
        count: seen.count.wrapping_add(1),
        mass: seen.mass.wrapping_add(body.mass as u64),
        first: seen.first.wrapping_add(
            (body.mass as u128).wrapping_mul(pos[0].wrapping_sub(cell.corner[0]) as u128),
        ),
        low: seen.low.min(pos[1]),
        high: seen.high.max(pos[1]),
        soft: seen.soft.max(SOFT[body.kind as usize]),
        children,
    }
}

fn filtered(bodies: &[Body], cell: &Cell) -> Seen {
    let mut seen = Seen {
        count: 0,
        mass: 0,
        first: 0,
        low: u32::MAX,
        high: 0,
        soft: 0,
        children: 0,
    };
    for body in bodies {
        if cell.contains(body.motion.pos()) {
            seen = with_body(&seen, cell, body);
        }
    }
    seen
}

// Whether an answer on a cell is what plain filters find.
fn is_as_filtered(answer: Option<Entry>, seen: &Seen) -> bool {
    let entry = match answer {
        Some(entry) => entry,
        None => return seen.count == 0,
    };
    let raw = entry.raw;
    raw.count == seen.count
        && raw.mass == seen.mass
        && raw.mx[0] == seen.first
        && raw.lo[1] == seen.low
        && raw.hi[1] == seen.high
        && raw.eps == seen.soft
        && entry.children == seen.children
}

// Whether a table tells of a cell, if this is its home, what plain filters find.
fn tells(table: &HomeTable, all: &Division, to: u16, cell: &Cell) -> bool
    requires bodies { IsValid all.now.bodies.now }
    requires soft { AreSoftenings all.now.soft.now }
    requires division { IsDivision all.now.bodies.now all.now.owners.now all.now.bounds.now }
    requires table { KeepsAll all.now.bodies.now all.now.owners.now all.now.bounds.now all.now.soft.now to (length all.now.bounds.now) table.now }
{
    keep_limits(all.bodies);
    if home(cell, all.bounds) != to {
        return true;
    }
    is_as_filtered(table.at(cell), &filtered(all.bodies, cell))
}

// The same of a cell and one of its children, which may have no member.
fn tells_below(table: &HomeTable, all: &Division, to: u16, cell: &Cell, k: u8) -> bool
    requires bodies { IsValid all.now.bodies.now }
    requires soft { AreSoftenings all.now.soft.now }
    requires division { IsDivision all.now.bodies.now all.now.owners.now all.now.bounds.now }
    requires table { KeepsAll all.now.bodies.now all.now.owners.now all.now.bounds.now all.now.soft.now to (length all.now.bounds.now) table.now }
    requires child { k < 8 }
{
    if !tells(table, all, to, cell) {
        return false;
    }
    cell.level == 32 || tells(table, all, to, &cell.child(k))
}

// The cell of a node.
fn cell_at(tree: &Tree, i: u32) -> Cell
    requires { i < length tree.now.nodes }
{
    let node = tree.node(i);
    node.cell
}

// Whether all tables tell of the cells of the whole tree, and of one child of each, what plain filters find.
fn all_tell(alloc: Global, all: &Division) -> Result<bool, Fail>
    requires bodies { IsValid all.now.bodies.now }
    requires soft { AreSoftenings all.now.soft.now }
    requires division { IsDivision all.now.bodies.now all.now.owners.now all.now.bounds.now }
{
    let tree = build(alloc, all.bodies, all.soft)?;
    for to in 0..all.bounds.ranks() as u16 {
        let table = table_of(alloc, all, to)?;
        if !tells_below(&table, all, to, &Cell::root(), 0) {
            return Ok(false);
        }
        for i in 0..tree.len() {
            if !tells_below(&table, all, to, &cell_at(&tree, i), (i % 8) as u8) {
                return Ok(false);
            }
        }
    }
    Ok(true)
}

// The same with as many ranks, whose bodies lie along the curve.
fn ranks_tell(alloc: Global, bodies: &[Body], ranks: u32) -> Result<bool, Fail>
    requires bodies { IsValid bodies.now }
    requires some { 1 ≤ ranks }
    requires few { ranks ≤ 256 }
{
    let owners = split(alloc, bodies, ranks)?;
    let bounds = Bounds::of(alloc, bodies, &owners, ranks)?;
    let all = Division {
        bodies,
        owners: &owners,
        bounds: &bounds,
        soft: &SOFT,
    };
    all_tell(alloc, &all)
}

fn next(seed: u64) -> u64 {
    seed.wrapping_mul(6364136223846793005)
        .wrapping_add(1442695040888963407)
}

// A coordinate of a random set: anywhere, or near one place, where leaves lie inside cells of other ranks.
fn coordinate(set: u32, draw: u32) -> u32 {
    match set % 3 {
        0 => draw,
        1 => 77 + draw % 3,
        _ => 1000 + draw % 700,
    }
}

// 300 sets of up to 60 bodies, of 1 to 9 ranks.
#[test]
fn homes_of_random_sets(rt: HostRuntime) -> Result<(), Fail> {
    let alloc = rt.alloc();
    let mut seed: u64 = 3;
    for set in 0..300u32 {
        let mut places = [[0u32; 3]; 60];
        for k in 0..60usize {
            for axis in 0..3usize {
                seed = next(seed);
                places[k][axis] = coordinate(set, (seed >> 32) as u32);
            }
        }
        seed = next(seed);
        let count = ((seed >> 33) % 61) as usize;
        let bodies = bodies_at(alloc, places.get(..count).ok_or("short")?)?;
        let ranks = set / 3 % 9 + 1;
        assert!(rt; ranks_tell(alloc, &bodies, ranks)?, "{set} {ranks}");
    }
    Ok(())
}

#[test]
fn homes_of_three(rt: HostRuntime) -> Result<(), Fail> {
    let alloc = rt.alloc();
    let positions = [[0, 0, 0], [536870912, 0, 0], [268435456, 1610612736, 0]];
    let bodies = bodies_at(alloc, &positions)?;
    for ranks in [1, 2, 3, 64] {
        assert!(rt; ranks_tell(alloc, &bodies, ranks)?, "{ranks}");
    }
    Ok(())
}
