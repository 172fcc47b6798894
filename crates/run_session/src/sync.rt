// What is done at a synchronisation.
ghost use Rattle.std.specs.Prelude.{◌≡◌, ◌<◌, ◌^◌, IfSome, IfOk, IfErr, OnOk, not, ◌||◌, nat_lt};
ghost use Rattle.nbody_model.specs.Session.{Plan, SessionData, is_due, with_restart};
ghost use Rattle.param_file.specs.Settings.{setup_of};
ghost use Rattle.run_session.specs.Causes.{FilesCause};
ghost use Rattle.run_session.specs.Promises.{SaveBreaks, Saves, ShowBreaks, Shows, SynchroniseBreaks, Synchronises};
ghost use Rattle.run_session.specs.Spans.{stop_span, store_span};
ghost use Rattle.model_laws.specs.Resumed.{SameTimes};
ghost use Rattle.run_session.specs.Stages.{AreOthers, IsAnswer, KeepsOwn, asks_at, kept_after};

use crate::course::Course;
use crate::failure::Failure;
use crate::writes::{save, show};
use nbody_model::Forces;
use output_schedule::due;
use param_file::Params;
use restart_files::State;
use std::alloc::Global;
use store_io::{Stopper, Store};

// Writes the next snapshot, if there is to be one.
fn show_if<F: Forces, S: Store>(
    alloc: Global,
    course: &Course,
    due: bool,
    state: State,
    store: &mut S,
) -> Result<State, Failure>
    requires others { AreOthers course.now.params.now course.now.own.now }
    ensures tells { S.tells store.new ≡ S.tells store.old }
    ensures cause { FilesCause result (S.faults store.old) (S.faults store.new) (S.last store.old) (S.last store.new) }
    ensures keeps { OnOk result (KeepsOwn course.now.own.now (S.tells store.old) (S.file store.old) (S.file store.new)) }
    ensures times { IfOk result (λ τ. SameTimes τ state) }
    ensures ok { IfOk result (Shows course.now due state (store_span F.Forces S.Store store.old store.new)) }
    ensures err { IfErr result (ShowBreaks course.now due state (store_span F.Forces S.Store store.old store.new)) }
{
    if due {
        return match show(alloc, course, state, store) {
            Ok(shown) => Ok(shown),
            Err(failure) => Err(failure),
        };
    }
    Ok(state)
}

// Writes the next restart file, if there is to be one.
fn save_if<F: Forces, S: Store>(
    alloc: Global,
    course: &Course,
    kept: bool,
    state: State,
    store: &mut S,
) -> Result<State, Failure>
    requires others { AreOthers course.now.params.now course.now.own.now }
    requires setup { course.now.setup.now ≡ setup_of course.now.params.now }
    ensures tells { S.tells store.new ≡ S.tells store.old }
    ensures cause { FilesCause result (S.faults store.old) (S.faults store.new) (S.last store.old) (S.last store.new) }
    ensures keeps { OnOk result (KeepsOwn course.now.own.now (S.tells store.old) (S.file store.old) (S.file store.new)) }
    ensures times { IfOk result (λ τ. SameTimes τ state) }
    ensures state { IfOk result (λ τ. (d : SessionData) → d.state ≡ state → (with_restart kept d).state ≡ τ) }
    ensures ok { OnOk result (Saves course.now kept state (store_span F.Forces S.Store store.old store.new)) }
    ensures err { IfErr result (SaveBreaks course.now kept state (store_span F.Forces S.Store store.old store.new)) }
{
    if kept {
        return match save(alloc, course, state, store) {
            Ok(saved) => Ok(saved),
            Err(failure) => Err(failure),
        };
    }
    Ok(state)
}

// Whether a listed time has come since the former synchronisation; at tick 0, whether it is listed itself.
fn is_due(times: &[u64], before: Option<u64>, tick: u64) -> bool
    requires tick { tick < 2 ^ 63 }
    requires before { IfSome before (λ b. b < 2 ^ 63) }
    ensures { (plan : Plan) → plan.times ≡ times.now → result ≡ is_due plan before tick }
{
    match before {
        None => due(times, 0, 1),
        Some(from) => due(times, from + 1, tick + 1),
    }
}

// Whether the last tick isn't reached.
fn is_running(params: &Params, state: &State) -> bool
    ensures { result ≡ nat_lt state.now.tick params.now.time_max }
{
    state.tick < params.time_max
}

// Whether a snapshot is written: where a listed time has come, and at the end.
fn shows(times: &[u64], before: Option<u64>, state: &State, running: bool) -> bool
    requires tick { state.now.tick < 2 ^ 63 }
    requires before { IfSome before (λ b. b < 2 ^ 63) }
    ensures { (plan : Plan) → plan.times ≡ times.now → result ≡ (is_due plan before state.now.tick || not running) }
{
    let due = is_due(times, before, state.tick);
    due || !running
}

fn either(one: bool, other: bool) -> bool
    ensures { result ≡ (one || other) }
{
    one || other
}

// Whether a restart file is written after so many base steps of a run that goes on.
fn is_kept(params: &Params, state: &State, running: bool) -> bool
    ensures { result ≡ kept_after params.now.restart_every state.now.steps running }
{
    let every = params.restart_every;
    let steps = state.steps;
    running && every != 0 && 0 < steps && steps % every == 0
}

// Whether the run is to stop here.
fn asks<Q: Stopper>(before: Option<u64>, running: bool, stop: &mut Q) -> bool
    ensures { IsAnswer (asks_at before running) result (Q.yes stop.old) (Q.yes stop.new) (Q.left stop.old) (Q.left stop.new) }
{
    match before {
        None => false,
        Some(_) => {
            if running {
                return stop.asked();
            }
            false
        }
    }
}

/// A synchronisation, after that at the tick `before`, or the first one of a run from tick 0: a snapshot where a listed time
/// has come and at the end, a restart file where one is kept, and a question whether the run is to stop, which then writes a
/// restart file unless it was just written. The answer is the state, and whether the run is to stop.
pub(crate) fn synchronise<F: Forces, S: Store, Q: Stopper>(
    alloc: Global,
    course: &Course,
    before: Option<u64>,
    state: State,
    store: &mut S,
    stop: &mut Q,
) -> Result<(State, bool), Failure>
    requires others { AreOthers course.now.params.now course.now.own.now }
    requires setup { course.now.setup.now ≡ setup_of course.now.params.now }
    requires tick { state.tick < 2 ^ 63 }
    requires before { IfSome before (λ b. b < 2 ^ 63) }
    ensures tells { S.tells store.new ≡ S.tells store.old }
    ensures cause { FilesCause result (S.faults store.old) (S.faults store.new) (S.last store.old) (S.last store.new) }
    ensures keeps { OnOk result (KeepsOwn course.now.own.now (S.tells store.old) (S.file store.old) (S.file store.new)) }
    ensures times { IfOk result (λ r. SameTimes r.0 state) }
    ensures ok { IfOk result (Synchronises course.now before state (stop_span F.Forces S.Store Q.Stopper store.old stop.old store.new stop.new)) }
    ensures err { IfErr result (SynchroniseBreaks course.now before state (stop_span F.Forces S.Store Q.Stopper store.old stop.old store.new stop.new)) }
{
    let params = course.params;
    let running = is_running(params, &state);
    let due = shows(course.outputs, before, &state, running);
    let kept = is_kept(params, &state, running);
    let shown = match show_if::<F, S>(alloc, course, due, state, store) {
        Ok(shown) => shown,
        Err(failure) => return Err(failure),
    };
    let stops = asks(before, running, stop);
    let saves = either(kept, stops);
    match save_if::<F, S>(alloc, course, saves, shown, store) {
        Ok(saved) => Ok((saved, stops)),
        Err(failure) => Err(failure),
    }
}
