// The commands that run: from tick 0, and from a restart file.
ghost use Rattle.std.specs.Prelude.{◌≡◌, IfSome};
ghost use Rattle.nbody_model.specs.Setups.{IsSetup, last_tick};
ghost use Rattle.nbody_model.specs.Tables.{IsTable, Reaches};
ghost use Rattle.param_file.specs.Settings.{setup_of};
ghost use Rattle.restart_laws.specs.Kept.{IsFirst};
ghost use Rattle.run_session.specs.RunEnds.{IsBegun};
ghost use Rattle.gadget.specs.Asks.{IsCount};
ghost use Rattle.gadget.specs.Inputs.{inputs_of};
ghost use Rattle.gadget.specs.Begins.{first_state};
ghost use Rattle.gadget.specs.Answers.{ResumeDoes, RunDoes, SessionEnds, edge_by};

use crate::begins::{load_resume, load_run};
use crate::inputs::Inputs;
use crate::outcome::Outcome;
use nbody_model::Setup;
use param_file::Params;
use particle_set::{BodySet, are_storable};
use rank_exchange::Kit;
use rank_field::RankField;
use restart_files::State;
use run_session::Ended;
use std::alloc::Global;
use step_engine::Depths;
use store_io::{Schedule, Stopper, Store, Text};

// These bodies at tick 0.
fn first_state(alloc: Global, set: BodySet) -> State
    ensures is { result ≡ first_state set }
    ensures first { IsFirst result }
{
    are_storable(set.bodies());
    State {
        set,
        depth: Depths::from_list(Vec::new(alloc)),
        steps: 0,
        tick: 0,
        next_snapshot: 0,
        next_restart: 0,
        kicks: 0,
        interactions: 0,
    }
}

// The settings that fix forces and steps, each in its range.
fn setup_of(params: &Params) -> Setup
    ensures is { result ≡ setup_of params.now }
    ensures ranges { IsSetup (setup_of params.now) }
{
    let setup = params.setup();
    let _time_max = setup.time_max;
    setup
}

/// How a session is made: resumed or not, and by how many ranks that find its forces together.
#[derive(Clone, Copy)]
struct Way {
    resumed: bool,
    ranks: u32,
}

// Runs from a state on. The schedule begins anew from the seed of the settings, once for all forces.
#[tactic(auto, using(crate::proofs::SoundTables::sound_corrects))]
fn run_from<S: Store, K: Schedule, Q: Stopper>(
    alloc: Global,
    inputs: &Inputs,
    state: State,
    way: Way,
    store: &mut S,
    order: &mut K,
    stop: &mut Q,
) -> Ended
    requires begun { IsBegun (setup_of inputs.now.params) way.resumed state }
    requires sound { IfSome inputs.now.table IsTable }
    requires reach { IfSome inputs.now.factors (λ e. Reaches e (last_tick (setup_of inputs.now.params))) }
    requires ranks { IsCount way.ranks }
    ensures tells { S.tells store.new ≡ S.tells store.old }
    ensures ends { SessionEnds way (edge_by S.Store K.Schedule Q.Stopper store.old order.old stop.old store.new order.new stop.new)
        (inputs_of inputs.now) state result }
{
    order.seed(inputs.params.delivery_seed);
    let kit = Kit::new(inputs.params.setup(), inputs.table.as_ref());
    let mut forces = RankField::new(alloc, &kit, way.ranks, order);
    let course = run_session::Inputs {
        params: &inputs.params,
        expansion: inputs.factors.as_ref(),
        outputs: &inputs.outputs,
    };
    run_session::run(alloc, &course, way.resumed, state, &mut forces, store, stop)
}

/// A run from tick 0 by so many ranks.
pub fn run<S: Store, K: Schedule, Q: Stopper>(
    alloc: Global,
    param: &Text,
    ranks: u32,
    store: &mut S,
    order: &mut K,
    stop: &mut Q,
) -> Outcome
    requires { IsCount ranks }
    ensures tells { S.tells store.new ≡ S.tells store.old }
    ensures does { RunDoes ranks (edge_by S.Store K.Schedule Q.Stopper store.old order.old stop.old store.new order.new stop.new) param.now result }
{
    let (inputs, set) = match load_run(alloc, store, param) {
        Ok(begun) => begun,
        Err(status) => return Outcome::Refused(status),
    };
    let state = first_state(alloc, set);
    let setup = setup_of(&inputs.params);
    let way = Way {
        resumed: false,
        ranks,
    };
    let ended = run_from(alloc, &inputs, state, way, store, order, stop);
    Outcome::Ran { ended, setup }
}

/// A run by so many ranks that goes on from a restart file, as each run from tick 0 that kept the file.
pub fn resume<S: Store, K: Schedule, Q: Stopper>(
    alloc: Global,
    param: &Text,
    restart: &Text,
    ranks: u32,
    store: &mut S,
    order: &mut K,
    stop: &mut Q,
) -> Outcome
    requires { IsCount ranks }
    ensures tells { S.tells store.new ≡ S.tells store.old }
    ensures does { ResumeDoes ranks (edge_by S.Store K.Schedule Q.Stopper store.old order.old stop.old store.new order.new stop.new)
        param.now restart.now result }
{
    let (inputs, state) = match load_resume(alloc, store, param, restart) {
        Ok(begun) => begun,
        Err(status) => return Outcome::Refused(status),
    };
    let setup = setup_of(&inputs.params);
    let way = Way {
        resumed: true,
        ranks,
    };
    let ended = run_from(alloc, &inputs, state, way, store, order, stop);
    Outcome::Ran { ended, setup }
}
