// A turn of a run: a base step, what is told of it, and the synchronisation that follows.
ghost use Rattle.std.specs.Prelude.{◌≡◌, ◌<◌, ◌*◌, ◌^◌, [], None, IfSome, false, IfOk, IfErr, OnOk, option_copied};
ghost use Rattle.nbody_model.specs.Setups.{last_tick};
ghost use Rattle.nbody_model.specs.Tables.{Reaches};
ghost use Rattle.nbody_model.specs.Evolve.{is_empty};
ghost use Rattle.param_file.specs.Settings.{IsParams, setup_of};
ghost use Rattle.restart_files.specs.Stored.{IsKept};
ghost use Rattle.step_engine.specs.Told.{AreForcesAmong};
ghost use Rattle.step_engine.specs.BaseSteps.{StandsFor};
ghost use Rattle.run_session.specs.Causes.{FilesCause};
ghost use Rattle.run_session.specs.Own.{AreApart};
ghost use Rattle.run_session.specs.Promises.{BreaksFrom, FollowBreaks, Follows, GoesThrough, RestBreaks, StopsAtRest, TakesTurn, ThroughBreaks};
ghost use Rattle.run_session.specs.Spans.{span_by, stop_span, store_span};
ghost use Rattle.run_session.specs.Stages.{AreOthers, KeepsOwn};
ghost use Rattle.run_session.specs.Turned.{AreStanding, CanFollow, FollowsMade, GoesLater, StaysWith};

use crate::course::{Course, Progress};
use crate::failure::Failure;
use crate::open_files::append_own;
use crate::step::{Made, Refusal, Stepped, step};
use crate::sync::synchronise;
use crate::writes::save;
use nbody_model::Forces;
use restart_files::State;
use std::alloc::Global;
use store_io::{Stopper, Store};

/// What a run came to in a turn: it goes on, was stopped at a state whose restart file stands, or was refused.
#[derive(Drop)]
pub(crate) enum Turn {
    On(Progress),
    Stopped(State),
    Refused(Refusal),
}

// The synchronisation after a whole base step, or at tick 0.
pub(crate) fn after_step<F: Forces, S: Store, Q: Stopper>(
    alloc: Global,
    course: &Course,
    before: Option<u64>,
    run: Progress,
    store: &mut S,
    stop: &mut Q,
) -> Result<Turn, Failure>
    requires others { AreOthers course.now.params.now course.now.own.now }
    requires setup { course.now.setup.now ≡ setup_of course.now.params.now }
    requires tick { run.state.tick < 2 ^ 63 }
    requires before { IfSome before (λ b. b < 2 ^ 63) }
    requires flat { run.state.depths ≡ [] }
    ensures tells { S.tells store.new ≡ S.tells store.old }
    ensures cause { FilesCause result (S.faults store.old) (S.faults store.new) (S.last store.old) (S.last store.new) }
    ensures keeps { OnOk result (KeepsOwn course.now.own.now (S.tells store.old) (S.file store.old) (S.file store.new)) }
    ensures same { IfOk result (StaysWith run) }
    ensures ok { IfOk result (GoesThrough course.now before run.state (stop_span F.Forces S.Store Q.Stopper store.old stop.old store.new stop.new)) }
    ensures err { IfErr result (ThroughBreaks course.now before run.state (stop_span F.Forces S.Store Q.Stopper store.old stop.old store.new stop.new)) }
{
    let Progress { state, known } = run;
    let (state, stops) = match synchronise::<F, S, Q>(alloc, course, before, state, store, stop) {
        Ok(done) => done,
        Err(failure) => return Err(failure),
    };
    if stops {
        return Ok(Turn::Stopped(state));
    }
    Ok(Turn::On(Progress { state, known }))
}

// Writes the restart file of a state at which a base step rests.
fn save_rest<F: Forces, S: Store>(
    alloc: Global,
    course: &Course,
    state: State,
    store: &mut S,
) -> Result<State, Failure>
    requires others { AreOthers course.now.params.now course.now.own.now }
    requires setup { course.now.setup.now ≡ setup_of course.now.params.now }
    ensures tells { S.tells store.new ≡ S.tells store.old }
    ensures cause { FilesCause result (S.faults store.old) (S.faults store.new) (S.last store.old) (S.last store.new) }
    ensures keeps { OnOk result (KeepsOwn course.now.own.now (S.tells store.old) (S.file store.old) (S.file store.new)) }
    ensures ok { IfOk result (StopsAtRest course.now state (store_span F.Forces S.Store store.old store.new)) }
    ensures err { IfErr result (RestBreaks course.now state (store_span F.Forces S.Store store.old store.new)) }
{
    match save(alloc, course, state, store) {
        Ok(saved) => Ok(saved),
        Err(failure) => Err(failure),
    }
}

// What follows a base step whose texts stand in the files.
fn after_made<F: Forces, S: Store, Q: Stopper>(
    alloc: Global,
    course: &Course,
    before: u64,
    made: Made,
    store: &mut S,
    stop: &mut Q,
) -> Result<Turn, Failure>
    requires others { AreOthers course.now.params.now course.now.own.now }
    requires setup { course.now.setup.now ≡ setup_of course.now.params.now }
    requires before { before < 2 ^ 63 }
    requires made { CanFollow made }
    ensures tells { S.tells store.new ≡ S.tells store.old }
    ensures cause { FilesCause result (S.faults store.old) (S.faults store.new) (S.last store.old) (S.last store.new) }
    ensures keeps { OnOk result (KeepsOwn course.now.own.now (S.tells store.old) (S.file store.old) (S.file store.new)) }
    ensures same { IfOk result (FollowsMade made) }
    ensures ok { IfOk result (Follows course.now before made (stop_span F.Forces S.Store Q.Stopper store.old stop.old store.new stop.new)) }
    ensures err { IfErr result (FollowBreaks course.now before made (stop_span F.Forces S.Store Q.Stopper store.old stop.old store.new stop.new)) }
{
    match made {
        Made::Whole(next) => {
            match after_step::<F, S, Q>(alloc, course, Some(before), next, store, stop) {
                Ok(turn) => Ok(turn),
                Err(failure) => Err(failure),
            }
        }
        Made::Rested(state) => match save_rest::<F, S>(alloc, course, state, store) {
            Ok(state) => Ok(Turn::Stopped(state)),
            Err(failure) => Err(failure),
        },
        Made::Refused(refusal) => Ok(Turn::Refused(refusal)),
    }
}

// The tick of the synchronisation before.
fn last_sync(course: &Course, state: &State) -> u64
    requires { state.now.steps * 2 ^ course.now.setup.now.top_bin < 2 ^ 63 }
    ensures { result ≡ state.now.steps * 2 ^ course.now.setup.now.top_bin }
{
    let setup = course.setup;
    state.steps * (1u64 << setup.top_bin)
}

/// A turn of a run from a state on: its base step, or the rest of one, what is told of it in the files, and the
/// synchronisation that follows; or the restart file of the state at which it rests.
pub(crate) fn take_turn<F: Forces, S: Store, Q: Stopper>(
    alloc: Global,
    course: &Course,
    run: Progress,
    forces: &mut F,
    store: &mut S,
    stop: &mut Q,
) -> Result<Turn, Failure>
    requires forces { StandsFor (F.gravity forces.old) (setup_of course.now.params.now) }
    requires setup { course.now.setup.now ≡ setup_of course.now.params.now }
    requires spans { IfSome (option_copied course.now.expansion) (λ e. Reaches e (last_tick (setup_of course.now.params.now))) }
    requires others { AreOthers course.now.params.now course.now.own.now }
    requires apart { AreApart course.now.own.now }
    requires there { AreStanding course.now.own.now (S.tells store.old) (S.file store.old) }
    requires limits { IsParams course.now.params.now }
    requires known { IfSome run.known (AreForcesAmong (F.gravity forces.old) run.state.bodies) }
    requires begun { IsKept (setup_of course.now.params.now) run.state }
    requires fresh { is_empty run.state.depths ≡ false → run.known ≡ None }
    ensures same_gravity { F.gravity forces.new ≡ F.gravity forces.old }
    ensures same_fixed { F.fixed forces.new ≡ F.fixed forces.old }
    ensures tells { S.tells store.new ≡ S.tells store.old }
    ensures cause { FilesCause result (S.faults store.old) (S.faults store.new) (S.last store.old) (S.last store.new) }
    ensures keeps { OnOk result (AreStanding course.now.own.now (S.tells store.old) (S.file store.new)) }
    ensures later { IfOk result (GoesLater (F.gravity forces.old) course.now.params.now run.state.tick) }
    ensures ok { IfOk result (TakesTurn course.now run (span_by F.Forces S.Store Q.Stopper forces.old store.old stop.old forces.new store.new stop.new)) }
    ensures err { IfErr result (BreaksFrom course.now run (span_by F.Forces S.Store Q.Stopper forces.old store.old stop.old forces.new store.new stop.new)) }
{
    let before = last_sync(course, &run.state);
    let Stepped { log, made } = match step(alloc, course, run, forces, stop) {
        Ok(stepped) => stepped,
        Err(failure) => return Err(failure),
    };
    match append_own(alloc, store, course.own, &log) {
        Ok(()) => {}
        Err(failure) => return Err(failure),
    }
    after_made::<F, S, Q>(alloc, course, before, made, store, stop)
}
