// Sums over the members of a cell.
ghost use Rattle.std.specs.Prelude.{◌≡◌, ◌≤◌, ◌<◌, ◌+◌, ◌-◌, ◌*◌, ◌/◌, ◌^◌, ◌∷◌, [], true, slice_index};
ghost use Rattle.cell_space.specs.Cells.{contains, corner, place};
ghost use Rattle.node_moments.specs.Sums.{raw_of};
ghost use Rattle.node_moments.specs.Joined.{Joins, joined};

use cell_space::Cell;
use nbody_model::Body;
use std::marker::Model;

/// What is known of the members of a cell: how many there are and their mass; the sums of mass times distance
/// (x, y, z) and of mass times two distances (xx, yy, zz, xy, xz, yz) from the cell's corner, in length units;
/// their least and greatest coordinates, and their greatest softening length.
#[derive(Clone, Copy)]
pub struct Raw {
    pub cell: Cell,
    pub count: u32,
    pub mass: u64,
    pub mx: [u128; 3],
    pub mxx: [u128; 6],
    pub lo: [u32; 3],
    pub hi: [u32; 3],
    pub eps: u32,
}

impl Model for Raw {
    ghost use Rattle.node_moments.specs.Sums.{RawData, IsRaw};

    ghost Value = { RawData };

    ghost view = { λ r. record { cell = r.cell; count = r.count; mass = r.mass; mx = r.mx; mxx = r.mxx; lo = r.lo; hi = r.hi; eps = r.eps } };

    ghost invariant = { λ r. IsRaw r.count r.mass r.mx r.mxx };

    ghost inverse = { λ v. record { cell = v.cell; count = v.count; mass = v.mass; mx = v.mx; mxx = v.mxx; lo = v.lo; hi = v.hi; eps = v.eps } };
}

/// How far a position of a cell is from its corner, on each axis.
#[tactic(auto, using(crate::proofs::One::above_corners))]
fn from_corner(cell: &Cell, pos: [u32; 3]) -> [u32; 3]
    requires { contains cell.now (place pos) ≡ true }
    ensures { result ≡ (slice_index pos 0 - (corner cell.now).x) ∷ (slice_index pos 1 - (corner cell.now).y) ∷ (slice_index pos 2 - (corner cell.now).z) ∷ [] }
{
    let [x, y, z] = cell.corner;
    [pos[0] - x, pos[1] - y, pos[2] - z]
}

/// A mass times a distance.
#[tactic(auto, using(crate::proofs::Products::first_small))]
fn first(mass: u32, d: u32) -> u128
    ensures value { result ≡ mass * d }
    ensures small { result ≤ mass * 2 ^ 32 }
{
    mass as u128 * d as u128
}

/// A mass times two distances.
#[tactic(auto, using(crate::proofs::Products::second_small))]
fn second(mass: u32, d: u32, e: u32) -> u128
    ensures value { result ≡ mass * (d * e) }
    ensures small { result ≤ mass * 2 ^ 64 }
{
    mass as u128 * (d as u128 * e as u128)
}

impl Raw {
    /// The sums over one body in a cell, where the kinds have these softening lengths.
    #[tactic(auto, using(crate::proofs::One::alone_is))]
    pub fn of_body(cell: &Cell, body: &Body, soft: &[u32; 6]) -> Raw
        requires { contains cell.now body.now.motion.pos ≡ true }
        ensures { result ≡ raw_of soft.now cell.now (body.now ∷ []) }
    {
        let pos = body.motion.pos();
        let [x, y, z] = from_corner(cell, pos);
        let m = body.mass;
        Raw {
            cell: *cell,
            count: 1,
            mass: m as u64,
            mx: [first(m, x), first(m, y), first(m, z)],
            mxx: [
                second(m, x, x),
                second(m, y, y),
                second(m, z, z),
                second(m, x, y),
                second(m, x, z),
                second(m, y, z),
            ],
            lo: pos,
            hi: pos,
            eps: soft[body.kind as usize],
        }
    }

    /// The sums of two lists of bodies in one cell together.
    pub fn add(&self, other: &Raw) -> Raw
        requires same_cell { self.now.cell ≡ other.now.cell }
        requires few { self.now.count + other.now.count ≤ 1048576 }
        requires light { self.now.mass + other.now.mass ≤ 2 ^ 32 }
        ensures { Joins self.now other.now result }
    {
        self.joined(other)
    }

    // Each sum of both.
    fn joined(&self, other: &Raw) -> Raw
        requires few { self.now.count + other.now.count ≤ 1048576 }
        requires light { self.now.mass + other.now.mass ≤ 2 ^ 32 }
        ensures { result ≡ joined self.now other.now }
    {
        let (a, b) = (&self.mx, &other.mx);
        let (c, d) = (&self.mxx, &other.mxx);
        let (e, f) = (&self.lo, &other.lo);
        let (g, h) = (&self.hi, &other.hi);
        Raw {
            cell: self.cell,
            count: self.count + other.count,
            mass: self.mass + other.mass,
            mx: [a[0] + b[0], a[1] + b[1], a[2] + b[2]],
            mxx: [
                c[0] + d[0],
                c[1] + d[1],
                c[2] + d[2],
                c[3] + d[3],
                c[4] + d[4],
                c[5] + d[5],
            ],
            lo: [e[0].min(f[0]), e[1].min(f[1]), e[2].min(f[2])],
            hi: [g[0].max(h[0]), g[1].max(h[1]), g[2].max(h[2])],
            eps: self.eps.max(other.eps),
        }
    }
}
