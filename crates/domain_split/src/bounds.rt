// The bounds of ranks.
ghost use Rattle.std.specs.Prelude.{◌≡◌, ◌≤◌, ◌<◌, ◌^◌, IfOk, length, min, replicate, slice_index, slice_index_or, slice_set};
ghost use Rattle.std.specs.List.{AllByRecursion};
ghost use Rattle.nbody_model.specs.Bodies.{BodyData};
ghost use Rattle.octree_build.specs.Trees.{key_at};
ghost use Rattle.rank_curve_laws.specs.Along.{bounds_of};
ghost use Rattle.domain_split.specs.Splits.{AreBounds, leasts};

use fixed_point::Memory;
use hilbert_keys::key_of;
use nbody_model::Body;
use std::alloc::Global;
use std::marker::Model;

/// The number of all keys, which is above each of them.
const TOP: u128 = 1 << 96;

/// For each of 1 to 256 ranks its bound: the least key of its bodies, or 2^96 where it has none.
#[derive(Drop)]
pub struct Bounds {
    bounds: Vec<u128>,
    // the least of the bounds from each rank on: these rise, also where the bounds don't
    rising: Vec<u128>,
}

impl Model for Bounds {
    ghost use Rattle.std.specs.Prelude.{ℕ, List};
    ghost use Rattle.domain_split.specs.Splits.{AreBounds};

    ghost Value = { List ℕ };

    ghost view = { λ b. b.bounds.items };

    ghost invariant = { λ b. AreBounds b.bounds.items b.rising.items };
}

/// The key of the body at a place.
fn key_at(bodies: &[Body], i: usize) -> u128
    requires { i < length bodies.now }
    ensures { (d : BodyData) → result ≡ key_at (slice_index_or bodies.now i d) }
{
    let body = &bodies[i];
    key_of(body.motion.pos())
}

/// A rank has a body of a key.
fn lower(bounds: &mut Vec<u128>, rank: u16, key: u128)
    requires { rank < length bounds.now.items }
    ensures { bounds.new.items ≡ slice_set bounds.old.items rank (min (slice_index bounds.old.items rank) key) }
{
    let at = rank as usize;
    let least = bounds[at].min(key);
    bounds[at] = least;
}

/// For each rank the least key of its bodies.
fn least_keys(
    alloc: Global,
    bodies: &[Body],
    owner: &[u16],
    ranks: u32,
) -> Result<Vec<u128>, Memory>
    requires each { length owner.now ≡ length bodies.now }
    requires ranks { AllByRecursion (λ o. o < ranks) owner.now }
    ensures { IfOk result (λ bounds. bounds.items ≡ bounds_of bodies.now owner.now ranks) }
{
    let mut bounds = vec![in alloc; TOP; ranks as usize]?;
    for i in 0..bodies.len() {
        lower(&mut bounds, owner[i], key_at(bodies, i));
    }
    Ok(bounds)
}

/// The least of the bounds from each rank on.
fn leasts_of(alloc: Global, bounds: &[u128]) -> Result<Vec<u128>, Memory>
    ensures { IfOk result (λ rising. rising.items ≡ leasts bounds.now) }
{
    let mut rising = Vec::with_capacity(alloc, bounds.len())?;
    let mut least = u128::MAX;
    let mut from = bounds.len();
    while from > 0 {
        from -= 1;
        least = least.min(bounds[from]);
        rising.insert(0, least)?;
    }
    Ok(rising)
}

impl Bounds {
    /// The bounds of ranks, where each body has its owner.
    pub fn of(alloc: Global, bodies: &[Body], owner: &[u16], ranks: u32) -> Result<Bounds, Memory>
        requires some { 1 ≤ ranks }
        requires few { ranks ≤ 256 }
        requires each { length owner.now ≡ length bodies.now }
        requires ranks { AllByRecursion (λ o. o < ranks) owner.now }
        ensures value { IfOk result (λ bounds. bounds ≡ bounds_of bodies.now owner.now ranks) }
        ensures each { IfOk result (λ bounds. length bounds ≡ ranks) }
    {
        let bounds = least_keys(alloc, bodies, owner, ranks)?;
        let rising = leasts_of(alloc, &bounds)?;
        Ok(Bounds { bounds, rising })
    }

    /// How many ranks there are.
    pub fn ranks(&self) -> u32
        ensures value { result ≡ length self.now }
        ensures some { 1 ≤ result }
        ensures few { result ≤ 256 }
    {
        self.bounds.len() as u32
    }

    // The least of the bounds from each rank on.
    pub(crate) fn rising(&self) -> &[u128]
        ensures rising { result.now ≡ leasts self.now }
        ensures some { 0 < length self.now }
        ensures few { length self.now ≤ 256 }
    {
        &self.rising
    }
}
