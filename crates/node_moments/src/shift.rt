// Sums from another corner.
ghost use Rattle.std.specs.Prelude.{◌≡◌, ◌≤◌, ◌<◌, ◌+◌, ◌-◌, ◌*◌, ◌^◌, List, true};
ghost use Rattle.cell_space.specs.Cells.{contains, place};
ghost use Rattle.nbody_model.specs.Bodies.{BodyData};
ghost use Rattle.nbody_model.specs.Setups.{SetupData};
ghost use Rattle.nbody_model.specs.Nodes.{members};
ghost use Rattle.node_moments.specs.Sums.{raw_of};
ghost use Rattle.node_moments.specs.Shifted.{added, first_from, second_from, shifted};
ghost use Rattle.node_moments.specs.Conditions.{IsOfNode, IsSumOf};

use crate::Raw;
use cell_space::Cell;

/// What a corner adds to the sum of mass times two distances.
#[tactic(auto, using(crate::proofs::Products::square_small, crate::proofs::Products::term_small))]
fn added(mass: u64, a: u32, b: u32, first_a: u128, first_b: u128) -> u128
    requires light { mass ≤ 2 ^ 32 }
    requires first_a { first_a ≤ 2 ^ 66 }
    requires first_b { first_b ≤ 2 ^ 66 }
    ensures value { result ≡ added mass a b first_a first_b }
    ensures small { result ≤ 2 ^ 100 }
{
    let square = a as u128 * b as u128;
    a as u128 * first_b + b as u128 * first_a + mass as u128 * square
}

/// The sum of mass times distance on an axis, from the old corner, and where the old and the new corner are.
#[derive(Clone, Copy)]
struct Axis {
    first: u128,
    old: u32,
    new: u32,
}

/// The sum of mass times distance, from the new corner.
#[tactic(auto, using(crate::proofs::Products::corner_small))]
fn first_from(mass: u64, axis: Axis) -> u128
    requires light { mass ≤ 2 ^ 32 }
    requires first { axis.first ≤ 2 ^ 64 }
    ensures value { result ≡ first_from axis.first mass axis.old axis.new }
    ensures small { result ≤ 2 ^ 66 }
{
    (axis.first + mass as u128 * axis.old as u128).saturating_sub(mass as u128 * axis.new as u128)
}

/// The sum of mass times two distances, from the new corner.
fn second_from(second: u128, mass: u64, p: Axis, q: Axis) -> u128
    requires light { mass ≤ 2 ^ 32 }
    requires second { second ≤ 2 ^ 96 }
    requires first_p { p.first ≤ 2 ^ 64 }
    requires first_q { q.first ≤ 2 ^ 64 }
    ensures { result ≡ second_from second mass p.first q.first p.old q.old p.new q.new }
{
    let from_origin = second + added(mass, p.old, q.old, p.first, q.first);
    let first_p = first_from(mass, p);
    let first_q = first_from(mass, q);
    from_origin.saturating_sub(added(mass, p.new, q.new, first_p, first_q))
}

impl Raw {
    /// The sums over the same members from the corner of another cell, which contains them.
    pub fn shift(&self, cell: &Cell) -> Raw
        requires node { IsOfNode self.now }
        requires low { contains cell.now (place self.now.lo) ≡ true }
        requires high { contains cell.now (place self.now.hi) ≡ true }
        ensures { (s : SetupData) (B : List BodyData) → IsSumOf s B self.now → result ≡ raw_of s.soft cell.now (members B self.now.cell) }
    {
        Raw {
            cell: *cell,
            count: self.count,
            mass: self.mass,
            mx: self.firsts(cell),
            mxx: self.seconds(cell),
            lo: self.lo,
            hi: self.hi,
            eps: self.eps,
        }
    }

    // The sums of mass times distance from the new corner.
    #[tactic(auto, using(crate::proofs::Products::weight_small))]
    fn firsts(&self, cell: &Cell) -> [u128; 3]
        ensures { result ≡ (shifted self.now cell.now).mx }
    {
        let mass = self.mass;
        let [x, y, z] = self.mx;
        let from = self.cell;
        let [a, b, c] = from.corner;
        let [d, e, f] = cell.corner;
        [
            first_from(
                mass,
                Axis {
                    first: x,
                    old: a,
                    new: d,
                },
            ),
            first_from(
                mass,
                Axis {
                    first: y,
                    old: b,
                    new: e,
                },
            ),
            first_from(
                mass,
                Axis {
                    first: z,
                    old: c,
                    new: f,
                },
            ),
        ]
    }

    // The sums of mass times two distances from the new corner.
    #[tactic(auto, using(crate::proofs::Products::weight_small))]
    fn seconds(&self, cell: &Cell) -> [u128; 6]
        ensures { result ≡ (shifted self.now cell.now).mxx }
    {
        let mass = self.mass;
        let [x, y, z] = self.mx;
        let from = self.cell;
        let [a, b, c] = from.corner;
        let [d, e, f] = cell.corner;
        let x = Axis {
            first: x,
            old: a,
            new: d,
        };
        let y = Axis {
            first: y,
            old: b,
            new: e,
        };
        let z = Axis {
            first: z,
            old: c,
            new: f,
        };
        let [xx, yy, zz, xy, xz, yz] = self.mxx;
        [
            second_from(xx, mass, x, x),
            second_from(yy, mass, y, y),
            second_from(zz, mass, z, z),
            second_from(xy, mass, x, y),
            second_from(xz, mass, x, z),
            second_from(yz, mass, y, z),
        ]
    }
}
