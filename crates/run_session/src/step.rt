// One base step of a run.
ghost use Rattle.std.specs.Prelude.{◌≡◌, ◌<◌, ◌+◌, ◌*◌, ◌^◌, None, IfSome, IfOk, IfErr, OnErr, false, true, option_copied};
ghost use Rattle.nbody_model.specs.Setups.{IsSetup, last_tick};
ghost use Rattle.nbody_model.specs.Tables.{Reaches};
ghost use Rattle.nbody_model.specs.Evolve.{is_empty};
ghost use Rattle.param_file.specs.Settings.{setup_of};
ghost use Rattle.restart_files.specs.Stored.{HasDepths, IsKept};
ghost use Rattle.step_engine.specs.Told.{AreForcesAmong};
ghost use Rattle.step_engine.specs.BaseSteps.{AreKnown, StandsFor, StepCause};
ghost use Rattle.run_session.specs.Promises.{MakesStep, Records, TellsStep};
ghost use Rattle.run_session.specs.Spans.{step_span, taker_span};
ghost use Rattle.run_session.specs.Steps.{CanStep, RestsWith, counted_by, made_of, state_with, stepped_by};

use crate::course::{Course, Progress};
use crate::failure::Failure;
use crate::log::Log;
use crate::own::OwnFiles;
use crate::recorder::Recorder;
use nbody_model::{Field, Forces, Setup};
use particle_set::BodySet;
use restart_files::State;
use std::alloc::Global;
use step_engine::{Depths, KickOut, StepCount, StepEnd, base_step, finish_step};
use store_io::Stopper;

/// Why a base step is refused: the momentum of a body left its range in a kick, or a body fits no bin.
#[derive(Clone, Copy, Debug)]
pub(crate) enum Refusal {
    MomRange {
        tick: u64,
        bin: u8,
        id: u64,
        axis: u8,
    },
    StepRange {
        tick: u64,
        id: u64,
    },
}

/// How a base step ended: whole, with the run after it; at rest, with the state there; or refused.
#[derive(Drop)]
pub(crate) enum Made {
    Whole(Progress),
    Rested(State),
    Refused(Refusal),
}

/// A base step, with what was kept of it for the files.
#[derive(Drop)]
pub(crate) struct Stepped {
    pub log: Log,
    pub made: Made,
}

// What a state counts.
#[derive(Clone, Copy)]
struct Counters {
    steps: u64,
    tick: u64,
    next_snapshot: u64,
    next_restart: u64,
    kicks: u64,
    interactions: u128,
}

// A base step as it was recorded.
#[derive(Drop)]
struct Recorded {
    log: Log,
    ended: Result<StepCount, StepEnd>,
}

// Every setup keeps its limits.
fn keeps_setup(setup: &Setup)
    ensures { IsSetup setup.now }
{
    let _low = setup.low_bin;
}

// Whether the lines of forces are kept.
fn is_traced(own: &OwnFiles) -> bool
    ensures { IfSome own.now.trace (λ _. result ≡ true) }
{
    own.trace.is_some()
}

// Whether the records of fast parts are kept.
fn is_binned(own: &OwnFiles) -> bool
    ensures { IfSome own.now.bins (λ _. result ≡ true) }
{
    own.bins.is_some()
}

// Where a base step begins: the depths of the bodies, none but where they rest inside one, and the tick.
#[derive(Clone, Copy)]
struct Start<'a> {
    depth: &'a Depths,
    tick: u64,
}

// A base step where no body has a depth, and else the rest of one, told to any taker.
fn any_step<F: Forces, O: KickOut>(
    alloc: Global,
    course: &Course,
    set: &mut BodySet,
    start: &Start,
    known: &mut Option<Field>,
    forces: &mut F,
    out: &mut O,
) -> Result<StepCount, StepEnd>
    requires forces { StandsFor (F.gravity forces.old) course.now.setup.now }
    requires known { IfSome known.old (AreForcesAmong (F.gravity forces.old) set.old) }
    requires begun { CanStep course.now.setup.now (option_copied course.now.expansion) set.old start.now.depth.now start.now.tick }
    requires fresh { is_empty start.now.depth.now ≡ false → known.old ≡ None }
    ensures ends { TellsStep course.now start.now.depth.now start.now.tick known.old (taker_span F.Forces O.KickOut forces.old set.old out.old forces.new set.new out.new) result }
    ensures known { AreKnown result (F.gravity forces.old) set.new known.new }
    ensures cause { StepCause result (O.faults out.old) (O.faults out.new) (O.yes out.old) (O.yes out.new) }
    ensures same_gravity { F.gravity forces.new ≡ F.gravity forces.old }
    ensures same_fixed { F.fixed forces.new ≡ F.fixed forces.old }
    ensures same_out { O.fixed out.new ≡ O.fixed out.old }
{
    let setup = course.setup;
    let expansion = course.expansion;
    let Start { depth, tick } = *start;
    if depth.len() == 0 {
        return base_step(alloc, set, setup, expansion, tick, known, forces, out);
    }
    finish_step(
        alloc, set, setup, expansion, tick, depth, known, forces, out,
    )
}

// The same, recorded, with the stopper asked at resting points.
fn record_step<F: Forces, Q: Stopper>(
    alloc: Global,
    course: &Course,
    set: &mut BodySet,
    start: &Start,
    known: &mut Option<Field>,
    forces: &mut F,
    stop: &mut Q,
) -> Recorded
    requires forces { StandsFor (F.gravity forces.old) course.now.setup.now }
    requires known { IfSome known.old (AreForcesAmong (F.gravity forces.old) set.old) }
    requires begun { CanStep course.now.setup.now (option_copied course.now.expansion) set.old start.now.depth.now start.now.tick }
    requires fresh { is_empty start.now.depth.now ≡ false → known.old ≡ None }
    ensures recorded { Records course.now set.old set.new start.now.depth.now start.now.tick known.old (step_span F.Forces Q.Stopper forces.old stop.old forces.new stop.new) result }
    ensures known { AreKnown result.ended (F.gravity forces.old) set.new known.new }
    ensures cause { StepCause result.ended 0 0 (Q.yes stop.old) (Q.yes stop.new) }
    ensures same_gravity { F.gravity forces.new ≡ F.gravity forces.old }
    ensures same_fixed { F.fixed forces.new ≡ F.fixed forces.old }
{
    let own = course.own;
    let mut log = Log::new(alloc);
    let mut recorder = Recorder::new(alloc, stop, &mut log, is_traced(own), is_binned(own));
    let ended = any_step(alloc, course, set, start, known, forces, &mut recorder);
    Recorded { log, ended }
}

// With so many kicks more; the numbers wrap.
fn counted(counters: Counters, count: StepCount) -> Counters
    ensures { result ≡ counted_by count counters }
{
    Counters {
        kicks: counters.kicks.wrapping_add(count.kicks),
        interactions: counters.interactions.wrapping_add(count.interactions),
        ..counters
    }
}

// After a whole base step.
fn after_step(setup: &Setup, counters: Counters, count: StepCount) -> Counters
    requires { (counters.steps + 1) * 2 ^ setup.now.top_bin < 2 ^ 64 }
    ensures { result ≡ stepped_by setup.now.top_bin count counters }
{
    let steps = counters.steps + 1;
    Counters {
        steps,
        tick: steps * (1u64 << setup.top_bin),
        ..counted(counters, count)
    }
}

// A state that counts this.
fn state_of(set: BodySet, depth: Depths, counters: Counters) -> State
    requires { HasDepths set depth }
    ensures { result ≡ state_with set depth counters }
{
    State {
        set,
        depth,
        steps: counters.steps,
        tick: counters.tick,
        next_snapshot: counters.next_snapshot,
        next_restart: counters.next_restart,
        kicks: counters.kicks,
        interactions: counters.interactions,
    }
}

// What is made of an end that isn't that of a whole base step; nothing, where memory was wanting.
fn made_of(set: BodySet, counters: Counters, end: StepEnd) -> Option<Made>
    requires { RestsWith set end }
    ensures { result ≡ made_of set counters end }
{
    match end {
        StepEnd::MomRange {
            tick,
            bin,
            id,
            axis,
        } => Some(Made::Refused(Refusal::MomRange {
            tick,
            bin,
            id,
            axis,
        })),
        StepEnd::StepRange { tick, id } => Some(Made::Refused(Refusal::StepRange { tick, id })),
        StepEnd::Rest { tick, depth, count } => {
            let counters = Counters {
                tick,
                ..counted(counters, count)
            };
            Some(Made::Rested(state_of(set, depth, counters)))
        }
        StepEnd::OutFault => None,
        StepEnd::Memory => None,
    }
}

/// The base step from a run's state on, or the rest of one. Of the files nothing is changed: their texts are in the log. An
/// error is want of memory.
pub(crate) fn step<F: Forces, Q: Stopper>(
    alloc: Global,
    course: &Course,
    run: Progress,
    forces: &mut F,
    stop: &mut Q,
) -> Result<Stepped, Failure>
    requires forces { StandsFor (F.gravity forces.old) (setup_of course.now.params.now) }
    requires setup { course.now.setup.now ≡ setup_of course.now.params.now }
    requires spans { IfSome (option_copied course.now.expansion) (λ e. Reaches e (last_tick (setup_of course.now.params.now))) }
    requires known { IfSome run.known (AreForcesAmong (F.gravity forces.old) run.state.bodies) }
    requires begun { IsKept (setup_of course.now.params.now) run.state }
    requires fresh { is_empty run.state.depths ≡ false → run.known ≡ None }
    ensures same_gravity { F.gravity forces.new ≡ F.gravity forces.old }
    ensures same_fixed { F.fixed forces.new ≡ F.fixed forces.old }
    ensures made { IfOk result (MakesStep course.now run (step_span F.Forces Q.Stopper forces.old stop.old forces.new stop.new)) }
    ensures err { IfErr result (λ e. e ≡ Failure.Memory) }
    ensures quiet { OnErr result (Q.yes stop.new ≡ Q.yes stop.old) }
{
    keeps_setup(course.setup);
    let Progress { state, mut known } = run;
    let State {
        mut set,
        depth,
        steps,
        tick,
        next_snapshot,
        next_restart,
        kicks,
        interactions,
    } = state;
    let counters = Counters {
        steps,
        tick,
        next_snapshot,
        next_restart,
        kicks,
        interactions,
    };
    let start = Start {
        depth: &depth,
        tick,
    };
    let Recorded { log, ended } = record_step(
        alloc, course, &mut set, &start, &mut known, forces, stop,
    );
    match ended {
        Ok(count) => {
            let none = Depths::from_list(Vec::new(alloc));
            let state = state_of(set, none, after_step(course.setup, counters, count));
            let made = Made::Whole(Progress { state, known });
            Ok(Stepped { log, made })
        }
        Err(end) => match made_of(set, counters, end) {
            Some(made) => Ok(Stepped { log, made }),
            None => Err(Failure::Memory),
        },
    }
}
