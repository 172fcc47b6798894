// The moments of a node.
ghost use Rattle.std.specs.Prelude.{◌≡◌, ◌≤◌, ◌<◌, ◌+◌, ◌-◌, ◌*◌, ◌/◌, ◌^◌, List};
ghost use Rattle.cell_space.specs.Cells.{InBox, place};
ghost use Rattle.nbody_model.specs.Bodies.{BodyData};
ghost use Rattle.nbody_model.specs.Setups.{SetupData};
ghost use Rattle.nbody_model.specs.Moments.{moments};
ghost use Rattle.node_moments.specs.Computed.{about, moments_by};
ghost use Rattle.node_moments.specs.Conditions.{IsOfNode, IsSumOf, symmetric};

use crate::Raw;
use cell_space::Cell;
use std::marker::Model;

/// A cell, whether it is a leaf, and of its members the mass (1 to 2^32), the centre in length units (in the
/// cell), the second moments about it (xx, yy, zz, xy, xz, yz; at most the mass times the side squared, 0 at a
/// leaf) and the greatest softening length (256 to 2^30).
#[derive(Drop)]
pub struct Moments {
    pub cell: Cell,
    pub leaf: bool,
    pub mass: u64,
    pub centre: [u32; 3],
    pub quad: [i128; 6],
    pub eps: u32,
}

impl Model for Moments {
    ghost use Rattle.cell_space.specs.Cells.{place};
    ghost use Rattle.nbody_model.specs.Moments.{MomentsData};
    ghost use Rattle.node_moments.specs.Conditions.{IsMoments, symmetric};

    ghost Value = { MomentsData };

    ghost view = { λ m. record { cell = m.cell; leaf = m.leaf; mass = m.mass; centre = place m.centre; quad = symmetric m.quad; eps = m.eps } };

    ghost invariant = { λ m. IsMoments (record { cell = m.cell; leaf = m.leaf; mass = m.mass; centre = place m.centre; quad = symmetric m.quad; eps = m.eps }) };
}

/// How far the centre is from the corner on an axis, rounded down.
#[tactic(auto, using(crate::proofs::Products::mean_small))]
fn mean(first: u128, mass: u64) -> u64
    requires some { 0 < mass }
    requires inside { first ≤ mass * 2 ^ 32 }
    ensures value { result ≡ first / mass }
    ensures small { result ≤ 2 ^ 32 }
{
    (first / mass as u128) as u64
}

/// A second moment about the centre, by the one about the corner.
#[tactic(auto, using(crate::proofs::Products::square_small, crate::proofs::Products::term_small))]
fn about(second: u128, mass: u64, d: u64, e: u64, first_d: u128, first_e: u128) -> i128
    requires second { second ≤ 2 ^ 96 }
    requires light { mass ≤ 2 ^ 32 }
    requires near_d { d ≤ 2 ^ 32 }
    requires near_e { e ≤ 2 ^ 32 }
    requires first_d { first_d ≤ 2 ^ 64 }
    requires first_e { first_e ≤ 2 ^ 64 }
    ensures { result ≡ about second mass d e first_d first_e }
{
    let square = d as u128 * e as u128;
    let more = second + mass as u128 * square;
    let less = d as u128 * first_e + e as u128 * first_d;
    more as i128 - less as i128
}

impl Raw {
    /// The moments of the node over whose members these are the sums.
    #[tactic(auto, using(crate::proofs::Nodes::centre_small, crate::proofs::Nodes::some_mass))]
    pub fn moments(&self) -> Moments
        requires { IsOfNode self.now }
        ensures { (s : SetupData) (B : List BodyData) → IsSumOf s B self.now → result ≡ moments s B self.now.cell }
    {
        Moments {
            cell: self.cell,
            leaf: self.is_one_place(),
            mass: self.mass,
            centre: self.centre(),
            quad: self.quad(),
            eps: self.eps,
        }
    }

    // Whether the least coordinates are the greatest.
    fn is_one_place(&self) -> bool
        ensures { result ≡ (moments_by self.now).leaf }
    {
        self.lo[0] == self.hi[0] && (self.lo[1] == self.hi[1] && self.lo[2] == self.hi[2])
    }

    // The mean position by mass, rounded down.
    fn centre(&self) -> [u32; 3]
        requires heavy { 0 < self.now.mass }
        requires in_box { InBox (moments_by self.now).centre }
        ensures { place result ≡ (moments_by self.now).centre }
    {
        let mass = self.mass;
        let [mx, my, mz] = self.mx;
        let (dx, dy, dz) = (mean(mx, mass), mean(my, mass), mean(mz, mass));
        let cell = self.cell;
        let [x, y, z] = cell.corner;
        [
            (x as u64 + dx) as u32,
            (y as u64 + dy) as u32,
            (z as u64 + dz) as u32,
        ]
    }

    // The second moments about the centre.
    #[tactic(auto, using(crate::proofs::Products::weight_small))]
    fn quad(&self) -> [i128; 6]
        requires heavy { 0 < self.now.mass }
        ensures { symmetric result ≡ (moments_by self.now).quad }
    {
        let mass = self.mass;
        let [mx, my, mz] = self.mx;
        let (x, y, z) = (mean(mx, mass), mean(my, mass), mean(mz, mass));
        let [xx, yy, zz, xy, xz, yz] = self.mxx;
        [
            about(xx, mass, x, x, mx, mx),
            about(yy, mass, y, y, my, my),
            about(zz, mass, z, z, mz, mz),
            about(xy, mass, x, y, mx, my),
            about(xz, mass, x, z, mx, mz),
            about(yz, mass, y, z, my, mz),
        ]
    }
}
