// The state of a run as it lies in memory.
use particle_set::BodySet;
use std::marker::Model;
use step_engine::Depths;

/// What a run goes on from: its bodies, their depths where it rests inside a base step, the base steps done, the tick, the
/// numbers of the next snapshot and restart file, and the kicks and interactions from tick 0 on. There is no depth, or one
/// for each body.
#[derive(Drop)]
pub struct State {
    pub set: BodySet,
    pub depth: Depths,
    pub steps: u64,
    pub tick: u64,
    pub next_snapshot: u64,
    pub next_restart: u64,
    pub kicks: u64,
    pub interactions: u128,
}

impl Model for State {
    ghost use Rattle.nbody_model.specs.States.{StateData};
    ghost use Rattle.restart_files.specs.Stored.{HasDepths};

    ghost Value = { StateData };

    ghost view = { λ s. record { bodies = s.set; depths = s.depth; steps = s.steps; tick = s.tick; next_snapshot = s.next_snapshot; next_restart = s.next_restart; kicks = s.kicks; interactions = s.interactions } };

    ghost invariant = { λ s. HasDepths s.set s.depth };
}
