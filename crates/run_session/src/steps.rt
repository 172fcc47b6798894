// All base steps of a run.
ghost use Rattle.std.specs.Prelude.{◌≡◌, IfSome, IfOk, IfErr, OnOk, option_copied};
ghost use Rattle.nbody_model.specs.Setups.{last_tick};
ghost use Rattle.nbody_model.specs.Tables.{Reaches};
ghost use Rattle.param_file.specs.Settings.{IsParams, setup_of};
ghost use Rattle.step_engine.specs.BaseSteps.{StandsFor};
ghost use Rattle.run_session.specs.Causes.{FilesCause};
ghost use Rattle.run_session.specs.Own.{AreApart};
ghost use Rattle.run_session.specs.Promises.{BreaksFrom, MakesSteps};
ghost use Rattle.run_session.specs.Spans.{span_by};
ghost use Rattle.run_session.specs.Stages.{AreOthers};
ghost use Rattle.run_session.specs.Turned.{AreStanding, IsAtEnd};

use crate::course::{Course, Progress};
use crate::failure::Failure;
use crate::turn::{Turn, take_turn};
use nbody_model::Forces;
use std::alloc::Global;
use store_io::{Stopper, Store};

/// Base steps from the end of one on, while the tick is below `TimeMax`.
pub(crate) fn whole_steps<F: Forces, S: Store, Q: Stopper>(
    alloc: Global,
    course: &Course,
    run: Progress,
    forces: &mut F,
    store: &mut S,
    stop: &mut Q,
) -> Result<Turn, Failure>
    requires forces { StandsFor (F.gravity forces.old) (setup_of course.now.params.now) }
    requires setup { course.now.setup.now ≡ setup_of course.now.params.now }
    requires spans { IfSome (option_copied course.now.expansion) (λ e. Reaches e (last_tick (setup_of course.now.params.now))) }
    requires others { AreOthers course.now.params.now course.now.own.now }
    requires apart { AreApart course.now.own.now }
    requires limits { IsParams course.now.params.now }
    requires there { AreStanding course.now.own.now (S.tells store.old) (S.file store.old) }
    requires begun { IsAtEnd (F.gravity forces.old) course.now.params.now run }
    ensures tells { S.tells store.new ≡ S.tells store.old }
    ensures same_gravity { F.gravity forces.new ≡ F.gravity forces.old }
    ensures same_fixed { F.fixed forces.new ≡ F.fixed forces.old }
    ensures cause { FilesCause result (S.faults store.old) (S.faults store.new) (S.last store.old) (S.last store.new) }
    ensures keeps { OnOk result (AreStanding course.now.own.now (S.tells store.old) (S.file store.new)) }
    ensures ok { IfOk result (MakesSteps course.now run (span_by F.Forces S.Store Q.Stopper forces.old store.old stop.old forces.new store.new stop.new)) }
    ensures err { IfErr result (BreaksFrom course.now run (span_by F.Forces S.Store Q.Stopper forces.old store.old stop.old forces.new store.new stop.new)) }
{
    let setup = course.setup;
    let time_max = setup.time_max;
    let mut now = run;
    'steps: while now.state.tick < time_max {
        let turn = match take_turn(alloc, course, now, forces, store, stop) {
            Ok(turn) => turn,
            Err(failure) => return Err(failure),
        };
        match turn {
            Turn::On(next) => now = next,
            Turn::Stopped(state) => return Ok(Turn::Stopped(state)),
            Turn::Refused(refusal) => return Ok(Turn::Refused(refusal)),
        }
    }
    Ok(Turn::On(now))
}
