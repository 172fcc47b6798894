// What forces and steps go by, beside the bodies.
use std::marker::Model;

/// The settings that fix forces and steps: the ticks of a run, the bins, the opening angle in 1/256, the
/// accuracy of steps in 1/65536, the constant of gravity, the shift of velocities and the softening lengths
/// by kind (the first of the six isn't used and is 256).
#[derive(Clone, Copy)]
pub struct Setup {
    pub time_max: u64,
    pub low_bin: u8,
    pub top_bin: u8,
    pub theta: u32,
    pub eta: u32,
    pub gravity: u64,
    pub velocity_shift: u8,
    pub soft: [u32; 6],
}

impl Model for Setup {
    ghost use Rattle.nbody_model.specs.Setups.{SetupData, IsSetup};

    ghost Value = { SetupData };

    ghost view = { λ s. record { time_max = s.time_max; low_bin = s.low_bin; top_bin = s.top_bin; theta = s.theta; eta = s.eta; gravity = s.gravity; velocity_shift = s.velocity_shift; soft = s.soft } };

    ghost invariant = { λ s. IsSetup (record { time_max = s.time_max; low_bin = s.low_bin; top_bin = s.top_bin; theta = s.theta; eta = s.eta; gravity = s.gravity; velocity_shift = s.velocity_shift; soft = s.soft }) };

    ghost inverse = { λ v. record { time_max = v.time_max; low_bin = v.low_bin; top_bin = v.top_bin; theta = v.theta; eta = v.eta; gravity = v.gravity; velocity_shift = v.velocity_shift; soft = v.soft } };
}
