// The set of a run's bodies.
ghost use Rattle.std.specs.Prelude.{◌≡◌, ◌<◌, ◌≤◌, ◌^◌, length, map, IfOk, IfErr, OnOk, slice_get, Some, SomeIff, All, IsPermutation};
ghost use Rattle.std.specs.List.Sorted.{IsNonDecreasingBy};
ghost use Rattle.particle_set.specs.Rows.{HasKind, HasMass, HasMomentum, IsFirstRefusal, IsMomentumRefusal, IsSetOf, body_of};
ghost use Rattle.fixed_point.specs.Vectors.{IsAtMost};
ghost use Rattle.nbody_model.specs.Bodies.{IsValid, total, vector};
ghost use Rattle.particle_set.specs.Motions.{with_motion_at};
ghost use Rattle.particle_set.specs.Lent.{IsMotionAt, LendsMotion};
ghost use Rattle.std.specs.Borrow.{sem};

use crate::faults::{first_massless, first_repeated, mass_of};
use crate::lent::Bodies;
use crate::{Row, SetErr};
use fixed_point::{Memory, V3};
use nbody_model::{Body, Motion};
use std::alloc::Global;
use std::marker::Model;

const MOST_BODIES: usize = 1_048_576;

const MOST_MASS: u64 = 0x1_0000_0000;

/// Bodies ascending in id, at most 1,048,576 of them, whose masses add up to at most 2^32.
#[derive(Drop)]
pub struct BodySet {
    held: Bodies,
}

impl Model for BodySet {
    ghost use Rattle.std.specs.Prelude.{List};
    ghost use Rattle.nbody_model.specs.Bodies.{BodyData, IsValid};

    ghost Value = { List BodyData };

    ghost view = { λ s. s.held.list.items };

    ghost invariant = { λ s. IsValid s.held.list.items };
}

// The body of a row, where its momentum is in range.
fn body_from(row: &Row) -> Option<Body>
    requires kind { HasKind row.now }
    requires mass { HasMass row.now }
    ensures { SomeIff result (HasMomentum row.now) (body_of row.now) }
{
    let motion = Motion::new(row.pos, row.mom)?;
    Some(Body {
        id: row.id,
        kind: row.kind,
        mass: row.mass,
        motion,
    })
}

// The bodies of these rows, or the first id whose momentum is out of range.
fn bodies_of(alloc: Global, rows: &[Row]) -> Result<Vec<Body>, SetErr>
    requires kinds { All HasKind rows.now }
    requires masses { All HasMass rows.now }
    requires up { IsNonDecreasingBy (λ r. r.id) rows.now }
    ensures ok { IfOk result (λ bodies. bodies.items ≡ map body_of rows.now) }
    ensures in_range { OnOk result (All HasMomentum rows.now) }
    ensures err { IfErr result (IsMomentumRefusal rows.now) }
{
    let mut bodies = Vec::with_capacity(alloc, rows.len())?;
    for row in rows {
        let Some(body) = body_from(row) else {
            return Err(SetErr::MomRange { id: row.id });
        };
        bodies.push(body)?;
    }
    Ok(bodies)
}

fn momentum_of(body: &Body) -> V3
    ensures value { result ≡ body.now.motion.mom }
    ensures small { IsAtMost (2 ^ 62) result }
{
    let mom = body.motion.mom();
    V3 {
        x: i128::from(mom[0]),
        y: i128::from(mom[1]),
        z: i128::from(mom[2]),
    }
}

fn sort_by_id(rows: &mut Vec<Row>)
    ensures permutation { IsPermutation rows.old.items rows.new.items }
    ensures up { IsNonDecreasingBy (λ r. r.id) rows.new.items }
{
    rows.sort_unstable_by_key(|row| row.id);
}

// The set of rows that ascend in id, or the first reason why there is none.
fn from_sorted(alloc: Global, rows: &[Row]) -> Result<BodySet, SetErr>
    requires kinds { All HasKind rows.now }
    requires few { length rows.now ≤ 1048576 }
    requires up { IsNonDecreasingBy (λ r. r.id) rows.now }
    ensures ok { IfOk result (IsSetOf rows.now) }
    ensures err { IfErr result (IsFirstRefusal rows.now) }
{
    if let Some(id) = first_repeated(rows) {
        return Err(SetErr::Repeated { id });
    }
    if let Some(id) = first_massless(rows) {
        return Err(SetErr::ZeroMass { id });
    }
    let sum = mass_of(rows);
    if MOST_MASS < sum {
        return Err(SetErr::MassTotal { sum });
    }
    let bodies = bodies_of(alloc, rows)?;
    Ok(BodySet {
        held: Bodies { list: bodies },
    })
}

impl BodySet {
    /// The set of these rows, or the first reason why there is none. The rows are spent.
    pub fn from_list(alloc: Global, rows: Vec<Row>) -> Result<BodySet, SetErr>
        requires { All HasKind rows.items }
        ensures ok { IfOk result (IsSetOf rows.items) }
        ensures err { IfErr result (IsFirstRefusal rows.items) }
    {
        if MOST_BODIES < rows.len() {
            return Err(SetErr::TooMany {
                n: rows.len() as u64,
            });
        }
        let mut rows = rows;
        sort_by_id(&mut rows);
        from_sorted(alloc, &rows)
    }

    /// How many bodies there are.
    pub fn len(&self) -> usize
        ensures value { result ≡ length self.now }
        ensures few { result ≤ 1048576 }
    {
        self.held.list.len()
    }

    /// The body at a place, counted from 0.
    pub fn get(&self, i: usize) -> &Body
        requires { i < length self.now }
        ensures { slice_get self.now i ≡ Some result.now }
    {
        &self.held.list[i]
    }

    /// The bodies, ascending in id.
    pub fn bodies(&self) -> &[Body]
        ensures value { result.now ≡ self.now }
        ensures valid { IsValid self.now }
    {
        &self.held.list
    }

    /// The momentum of all bodies together, by axis.
    pub fn total_momentum(&self) -> [i128; 3]
        ensures { vector result ≡ total self.now }
    {
        let mut sum = V3::ZERO;
        for body in &self.held.list {
            sum = sum.plus(momentum_of(body));
        }
        [sum.x, sum.y, sum.z]
    }

    /// The same set again.
    pub fn copy(&self, alloc: Global) -> Result<BodySet, Memory>
        ensures { IfOk result (λ copied. copied ≡ self.now) }
    {
        let list = Vec::from_slice(alloc, &self.held.list)?;
        Ok(BodySet {
            held: Bodies { list },
        })
    }

    /// The motion of the body at a place, to be written. Nothing else changes.
    pub fn lend_one(&mut self, i: usize) -> &mut Motion
        requires { i < length self.old }
        ensures* writes { sem 𝓛 (LendsMotion self.entry i result) }
        ensures value { IsMotionAt self.old i result.now }
    {
        self.held.motion(i)
    }

    /// Gives the body at a place another motion, and changes nothing else.
    pub fn set_motion(&mut self, i: usize, motion: Motion)
        requires { i < length self.old }
        ensures { self.new ≡ with_motion_at self.old i motion }
    {
        *self.lend_one(i) = motion;
    }
}
