// Bodies: what is given of each, and what moves.
ghost use Rattle.std.specs.Prelude.{◌≡◌, ◌≤◌, ◌∷◌, [], ◌↔◌, IsTrue, SomeIff};
ghost use Rattle.cell_space.specs.Cells.{place};
ghost use Rattle.fixed_point.specs.Fixed.{IsMomentum};
ghost use Rattle.nbody_model.specs.Bodies.{IsInRange, MotionData, vector};

use std::marker::Model;

/// Where a body is, in length units, and its momentum, each component of which is within ±2^62.
#[derive(Clone, Copy)]
pub struct Motion {
    x: u32,
    y: u32,
    z: u32,
    px: i64,
    py: i64,
    pz: i64,
}

impl Model for Motion {
    ghost use Rattle.nbody_model.specs.Bodies.{MotionData, IsInRange};

    ghost Value = { MotionData };

    ghost view = { λ m. record { pos = record { x = m.x; y = m.y; z = m.z }; mom = record { x = m.px; y = m.py; z = m.pz } } };

    ghost invariant = { λ m. IsInRange (record { x = m.px; y = m.py; z = m.pz }) };

    ghost inverse = { λ v. record { x = v.pos.x; y = v.pos.y; z = v.pos.z; px = v.mom.x; py = v.mom.y; pz = v.mom.z } };
}

const LIMIT: i64 = 0x4000_0000_0000_0000;

fn in_range(p: i64) -> bool
    ensures { IsTrue result ↔ IsMomentum p }
{
    -LIMIT <= p && p <= LIMIT
}

impl Motion {
    /// A motion, or none exactly where a component of the momentum is out of range.
    pub fn new(pos: [u32; 3], mom: [i64; 3]) -> Option<Motion>
        ensures { SomeIff result (IsInRange (vector mom)) (record { pos = place pos; mom = vector mom }) }
    {
        if !in_range(mom[0]) {
            return None;
        }
        if !in_range(mom[1]) {
            return None;
        }
        if !in_range(mom[2]) {
            return None;
        }
        Some(Motion {
            x: pos[0],
            y: pos[1],
            z: pos[2],
            px: mom[0],
            py: mom[1],
            pz: mom[2],
        })
    }

    /// The position.
    pub fn pos(&self) -> [u32; 3]
        ensures { result ≡ self.now.pos.x ∷ self.now.pos.y ∷ self.now.pos.z ∷ [] }
    {
        [self.x, self.y, self.z]
    }

    /// The momentum.
    pub fn mom(&self) -> [i64; 3]
        ensures value { result ≡ self.now.mom.x ∷ self.now.mom.y ∷ self.now.mom.z ∷ [] }
        ensures range { IsInRange self.now.mom }
    {
        [self.px, self.py, self.pz]
    }

    /// Moves to a position.
    pub fn set_pos(&mut self, pos: [u32; 3])
        ensures { self.new ≡ record self.old { pos = place pos } }
    {
        self.x = pos[0];
        self.y = pos[1];
        self.z = pos[2];
    }

    /// Takes a momentum.
    pub fn set_mom(&mut self, mom: [i64; 3])
        requires { IsInRange (vector mom) }
        ensures { self.new ≡ record self.old { mom = vector mom } }
    {
        self.px = mom[0];
        self.py = mom[1];
        self.pz = mom[2];
    }
}

/// A body: its id, its kind from 1 to 5, its mass of at least 1, and its motion.
#[derive(Clone, Copy)]
pub struct Body {
    pub id: u64,
    pub kind: u8,
    pub mass: u32,
    pub motion: Motion,
}

impl Model for Body {
    ghost use Rattle.nbody_model.specs.Bodies.{BodyData, IsBody};

    ghost Value = { BodyData };

    ghost view = { λ b. record { id = b.id; kind = b.kind; mass = b.mass; motion = b.motion } };

    ghost invariant = { λ b. IsBody b.kind b.mass };

    ghost inverse = { λ v. record { id = v.id; kind = v.kind; mass = v.mass; motion = v.motion } };
}
