// A whole run: its session, and the files that are kept open around it.
ghost use Rattle.std.specs.Prelude.{◌≡◌, None, IfSome, not, IfOk, IfErr, OnOk, option_copied};
ghost use Rattle.nbody_model.specs.Bodies.{total, components};
ghost use Rattle.nbody_model.specs.Setups.{last_tick};
ghost use Rattle.nbody_model.specs.Tables.{Reaches};
ghost use Rattle.nbody_model.specs.Evolve.{is_empty};
ghost use Rattle.model_laws.specs.Laws.{AreBodies};
ghost use Rattle.param_file.specs.Settings.{IsParams, setup_of};
ghost use Rattle.step_engine.specs.BaseSteps.{StandsFor};
ghost use Rattle.run_session.specs.Causes.{FilesCause};
ghost use Rattle.run_session.specs.Own.{AreApart, own_files};
ghost use Rattle.run_session.specs.Promises.{BreaksFrom, CourseLeaves, InputsLeave, MakesSession, MakesSteps, Runs, SessionBreaks, StartBreaks, Starts};
ghost use Rattle.run_session.specs.RunEnds.{IsBegun};
ghost use Rattle.run_session.specs.Sessions.{Begins, StartsBy, came_to_last, end_of, ended_by, told_end, told_state};
ghost use Rattle.run_session.specs.Spans.{span_by, stop_span};
ghost use Rattle.run_session.specs.Stages.{AreOthers, KeepsOwn};
ghost use Rattle.run_session.specs.Turned.{AreStanding};

use crate::course::{Course, Progress};
use crate::ended::{End, Ended};
use crate::failure::Failure;
use crate::inputs::Inputs;
use crate::names::own_names;
use crate::open_files::{finish_own, open_own};
use crate::step::Refusal;
use crate::steps::whole_steps;
use crate::turn::{Turn, after_step, take_turn};
use model_laws::laws::bodies::keep_limits;
use model_laws::laws::sessions::sessions_conserve;
use nbody_model::Forces;
use param_file::Params;
use particle_set::BodySet;
use restart_files::State;
use std::alloc::Global;
use store_io::{Stopper, Store};

// The synchronisation of tick 0, in a run that isn't resumed.
fn start<F: Forces, S: Store, Q: Stopper>(
    alloc: Global,
    course: &Course,
    resumed: bool,
    state: State,
    store: &mut S,
    stop: &mut Q,
) -> Result<Turn, Failure>
    requires others { AreOthers course.now.params.now course.now.own.now }
    requires setup { course.now.setup.now ≡ setup_of course.now.params.now }
    requires begun { IsBegun (setup_of course.now.params.now) resumed state }
    ensures tells { S.tells store.new ≡ S.tells store.old }
    ensures cause { FilesCause result (S.faults store.old) (S.faults store.new) (S.last store.old) (S.last store.new) }
    ensures keeps { OnOk result (KeepsOwn course.now.own.now (S.tells store.old) (S.file store.old) (S.file store.new)) }
    ensures starts { IfOk result (StartsBy course.now.params.now) }
    ensures ok { IfOk result (Starts course.now resumed state (stop_span F.Forces S.Store Q.Stopper store.old stop.old store.new stop.new)) }
    ensures err { IfErr result (StartBreaks course.now resumed state (stop_span F.Forces S.Store Q.Stopper store.old stop.old store.new stop.new)) }
{
    let run = Progress { state, known: None };
    if resumed {
        return Ok(Turn::On(run));
    }
    match after_step::<F, S, Q>(alloc, course, None, run, store, stop) {
        Ok(turn) => Ok(turn),
        Err(failure) => Err(failure),
    }
}

// Whether a state is at rest inside a base step.
fn rests(state: &State) -> bool
    ensures { result ≡ not (is_empty state.now.depths) }
{
    state.depth.len() != 0
}

// What is left of a base step that rests, and then whole ones.
fn all_steps<F: Forces, S: Store, Q: Stopper>(
    alloc: Global,
    course: &Course,
    run: Progress,
    forces: &mut F,
    store: &mut S,
    stop: &mut Q,
) -> Result<Turn, Failure>
    requires forces { StandsFor (F.gravity forces.old) (setup_of course.now.params.now) }
    requires setup { course.now.setup.now ≡ setup_of course.now.params.now }
    requires spans { IfSome (option_copied course.now.expansion) (λ e. Reaches e (last_tick (setup_of course.now.params.now))) }
    requires others { AreOthers course.now.params.now course.now.own.now }
    requires apart { AreApart course.now.own.now }
    requires limits { IsParams course.now.params.now }
    requires there { AreStanding course.now.own.now (S.tells store.old) (S.file store.old) }
    requires none { run.known ≡ None }
    requires begun { Begins course.now.params.now run.state }
    ensures tells { S.tells store.new ≡ S.tells store.old }
    ensures same_gravity { F.gravity forces.new ≡ F.gravity forces.old }
    ensures same_fixed { F.fixed forces.new ≡ F.fixed forces.old }
    ensures cause { FilesCause result (S.faults store.old) (S.faults store.new) (S.last store.old) (S.last store.new) }
    ensures keeps { OnOk result (AreStanding course.now.own.now (S.tells store.old) (S.file store.new)) }
    ensures ok { IfOk result (MakesSteps course.now run (span_by F.Forces S.Store Q.Stopper forces.old store.old stop.old forces.new store.new stop.new)) }
    ensures err { IfErr result (BreaksFrom course.now run (span_by F.Forces S.Store Q.Stopper forces.old store.old stop.old forces.new store.new stop.new)) }
{
    if !rests(&run.state) {
        return match whole_steps(alloc, course, run, forces, store, stop) {
            Ok(turn) => Ok(turn),
            Err(failure) => Err(failure),
        };
    }
    let turn = match take_turn(alloc, course, run, forces, store, stop) {
        Ok(turn) => turn,
        Err(failure) => return Err(failure),
    };
    match turn {
        Turn::On(next) => match whole_steps(alloc, course, next, forces, store, stop) {
            Ok(turn) => Ok(turn),
            Err(failure) => Err(failure),
        },
        Turn::Stopped(state) => Ok(Turn::Stopped(state)),
        Turn::Refused(refusal) => Ok(Turn::Refused(refusal)),
    }
}

// The session: the synchronisation of tick 0, and all base steps.
fn session_steps<F: Forces, S: Store, Q: Stopper>(
    alloc: Global,
    course: &Course,
    resumed: bool,
    state: State,
    forces: &mut F,
    store: &mut S,
    stop: &mut Q,
) -> Result<Turn, Failure>
    requires forces { StandsFor (F.gravity forces.old) (setup_of course.now.params.now) }
    requires setup { course.now.setup.now ≡ setup_of course.now.params.now }
    requires spans { IfSome (option_copied course.now.expansion) (λ e. Reaches e (last_tick (setup_of course.now.params.now))) }
    requires others { AreOthers course.now.params.now course.now.own.now }
    requires apart { AreApart course.now.own.now }
    requires limits { IsParams course.now.params.now }
    requires there { AreStanding course.now.own.now (S.tells store.old) (S.file store.old) }
    requires begun { IsBegun (setup_of course.now.params.now) resumed state }
    ensures tells { S.tells store.new ≡ S.tells store.old }
    ensures same_gravity { F.gravity forces.new ≡ F.gravity forces.old }
    ensures same_fixed { F.fixed forces.new ≡ F.fixed forces.old }
    ensures cause { FilesCause result (S.faults store.old) (S.faults store.new) (S.last store.old) (S.last store.new) }
    ensures keeps { OnOk result (AreStanding course.now.own.now (S.tells store.old) (S.file store.new)) }
    ensures ok { IfOk result (MakesSession course.now resumed state (span_by F.Forces S.Store Q.Stopper forces.old store.old stop.old forces.new store.new stop.new)) }
    ensures err { IfErr result (SessionBreaks course.now resumed state (span_by F.Forces S.Store Q.Stopper forces.old store.old stop.old forces.new store.new stop.new)) }
{
    let turn = match start::<F, S, Q>(alloc, course, resumed, state, store, stop) {
        Ok(turn) => turn,
        Err(failure) => return Err(failure),
    };
    match turn {
        Turn::On(run) => match all_steps(alloc, course, run, forces, store, stop) {
            Ok(turn) => Ok(turn),
            Err(failure) => Err(failure),
        },
        Turn::Stopped(state) => Ok(Turn::Stopped(state)),
        Turn::Refused(refusal) => Ok(Turn::Refused(refusal)),
    }
}

// Whether the last tick was reached.
fn is_done(turn: &Turn) -> bool
    ensures { result ≡ came_to_last turn.now }
{
    match turn {
        Turn::On(_) => true,
        Turn::Stopped(_) => false,
        Turn::Refused(_) => false,
    }
}

// The session with the files that are kept open around it.
fn make_session<F: Forces, S: Store, Q: Stopper>(
    alloc: Global,
    course: &Course,
    resumed: bool,
    state: State,
    forces: &mut F,
    store: &mut S,
    stop: &mut Q,
) -> Result<Turn, Failure>
    requires forces { StandsFor (F.gravity forces.old) (setup_of course.now.params.now) }
    requires setup { course.now.setup.now ≡ setup_of course.now.params.now }
    requires spans { IfSome (option_copied course.now.expansion) (λ e. Reaches e (last_tick (setup_of course.now.params.now))) }
    requires limits { IsParams course.now.params.now }
    requires own { course.now.own.now ≡ own_files course.now.params.now resumed state }
    requires begun { IsBegun (setup_of course.now.params.now) resumed state }
    requires bodies { AreBodies state.bodies }
    ensures tells { S.tells store.new ≡ S.tells store.old }
    ensures same_gravity { F.gravity forces.new ≡ F.gravity forces.old }
    ensures same_fixed { F.fixed forces.new ≡ F.fixed forces.old }
    ensures leaves { CourseLeaves course.now resumed state (span_by F.Forces S.Store Q.Stopper forces.old store.old stop.old forces.new store.new stop.new) result }
{
    sessions_conserve();
    match open_own(alloc, store, course.own) {
        Ok(()) => {}
        Err(failure) => return Err(failure),
    }
    let turn = match session_steps(alloc, course, resumed, state, forces, store, stop) {
        Ok(turn) => turn,
        Err(failure) => return Err(failure),
    };
    match finish_own(alloc, store, course.own, is_done(&turn)) {
        Ok(()) => Ok(turn),
        Err(failure) => Err(failure),
    }
}

// What settings keep.
fn limits(params: &Params)
    ensures { IsParams params.now }
{
    let _time_max = params.time_max;
}

// The same from the settings.
fn session_of<F: Forces, S: Store, Q: Stopper>(
    alloc: Global,
    inputs: &Inputs,
    resumed: bool,
    state: State,
    forces: &mut F,
    store: &mut S,
    stop: &mut Q,
) -> Result<Turn, Failure>
    requires forces { StandsFor (F.gravity forces.old) (setup_of inputs.now.params.now) }
    requires begun { IsBegun (setup_of inputs.now.params.now) resumed state }
    requires spans { IfSome (option_copied inputs.now.expansion) (λ e. Reaches e (last_tick (setup_of inputs.now.params.now))) }
    requires bodies { AreBodies state.bodies }
    ensures tells { S.tells store.new ≡ S.tells store.old }
    ensures same_gravity { F.gravity forces.new ≡ F.gravity forces.old }
    ensures same_fixed { F.fixed forces.new ≡ F.fixed forces.old }
    ensures leaves { InputsLeave inputs.now resumed state (span_by F.Forces S.Store Q.Stopper forces.old store.old stop.old forces.new store.new stop.new) result }
{
    sessions_conserve();
    let params = inputs.params;
    limits(params);
    let Ok(own) = own_names(alloc, params, resumed, &state) else {
        return Err(Failure::Memory);
    };
    let setup = params.setup();
    let course = Course {
        params,
        setup: &setup,
        own: &own,
        expansion: inputs.expansion,
        outputs: inputs.outputs,
    };
    match make_session(alloc, &course, resumed, state, forces, store, stop) {
        Ok(turn) => Ok(turn),
        Err(failure) => Err(failure),
    }
}

// The momentum of all bodies together.
fn momentum_of(set: &BodySet) -> [i128; 3]
    ensures { result ≡ components (total set.now) }
{
    let total = set.total_momentum();
    [total[0], total[1], total[2]]
}

// How a run ended that tells its end alone.
fn told_end(end: End, momentum: [i128; 3]) -> Ended
    ensures { result ≡ told_end end momentum }
{
    Ended {
        end,
        tick: 0,
        steps: 0,
        snapshots: 0,
        kicks: 0,
        interactions: 0,
        momentum,
    }
}

// How a run ended that tells its last state too.
fn told_state(end: End, state: State, momentum: [i128; 3]) -> Ended
    ensures { result ≡ told_state end state momentum }
{
    Ended {
        end,
        tick: state.tick,
        steps: state.steps,
        snapshots: state.next_snapshot,
        kicks: state.kicks,
        interactions: state.interactions,
        momentum,
    }
}

fn end_of(refusal: Refusal) -> End
    ensures { result ≡ end_of refusal }
{
    match refusal {
        Refusal::MomRange {
            tick,
            bin,
            id,
            axis,
        } => End::MomRange {
            tick,
            bin,
            id,
            axis,
        },
        Refusal::StepRange { tick, id } => End::StepRange { tick, id },
    }
}

// How a run ended.
fn ended_by(made: Result<Turn, Failure>, momentum: [i128; 3]) -> Ended
    ensures { result ≡ ended_by made momentum }
{
    match made {
        Ok(Turn::On(run)) => told_state(End::Done, run.state, momentum),
        Ok(Turn::Stopped(state)) => told_state(End::Stopped, state, momentum),
        Ok(Turn::Refused(refusal)) => told_end(end_of(refusal), momentum),
        Err(Failure::WriteFault { name }) => told_end(End::WriteFault { name }, momentum),
        Err(Failure::Memory) => told_end(End::Memory, momentum),
    }
}

/// A run by these inputs and the forces that are found, from a state on: one in which nothing was done, at tick 0, or, where
/// it is resumed, one that a restart file keeps.
///
/// The kick file, the trace file where ranks are traced, and the bin file where one is named and the run isn't resumed are
/// made first and finished last. Base steps are made while the tick is below `TimeMax`; a rest state's base step is finished
/// first. What happened in a base step stands in those files before the snapshot and the restart file that follow it. The
/// stopper is asked at resting points and at synchronisations; after a yes a restart file stands, and the run ends. What is
/// told beside the end and the momentum is that of the last state on `Done` and `Stopped`, and else 0.
pub fn run<F: Forces, S: Store, Q: Stopper>(
    alloc: Global,
    inputs: &Inputs,
    resumed: bool,
    state: State,
    forces: &mut F,
    store: &mut S,
    stop: &mut Q,
) -> Ended
    requires forces { StandsFor (F.gravity forces.old) (setup_of inputs.now.params.now) }
    requires begun { IsBegun (setup_of inputs.now.params.now) resumed state }
    requires spans { IfSome (option_copied inputs.now.expansion) (λ e. Reaches e (last_tick (setup_of inputs.now.params.now))) }
    ensures tells { S.tells store.new ≡ S.tells store.old }
    ensures same_gravity { F.gravity forces.new ≡ F.gravity forces.old }
    ensures same_fixed { F.fixed forces.new ≡ F.fixed forces.old }
    ensures ends { Runs inputs.now resumed state (span_by F.Forces S.Store Q.Stopper forces.old store.old stop.old forces.new store.new stop.new) result }
{
    let set = &state.set;
    keep_limits(set.bodies());
    let momentum = momentum_of(set);
    let made = session_of(alloc, inputs, resumed, state, forces, store, stop);
    ended_by(made, momentum)
}
