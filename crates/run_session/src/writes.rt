// The numbered files of a run, one after another.
ghost use Rattle.std.specs.Prelude.{◌≡◌, ◌∷◌, [], IfOk, OnOk, OnErr, IfErr};
ghost use Rattle.nbody_model.specs.Session.{Snapshot, Restart, kept, raised64};
ghost use Rattle.param_file.specs.Settings.{setup_of};
ghost use Rattle.run_session.specs.Causes.{Blames, FilesCause};
ghost use Rattle.run_session.specs.Outputs.{file_name};
ghost use Rattle.run_session.specs.Promises.{BeginsFile, Writes};
ghost use Rattle.run_session.specs.Stages.{AreOthers, KeepsOwn};

use crate::course::Course;
use crate::failure::Failure;
use crate::files::{write_restart_file, write_snapshot_file};
use crate::names::numbered;
use restart_files::State;
use std::alloc::Global;
use store_io::Store;

/// Writes the next snapshot.
pub(crate) fn show<S: Store>(
    alloc: Global,
    course: &Course,
    state: State,
    store: &mut S,
) -> Result<State, Failure>
    requires others { AreOthers course.now.params.now course.now.own.now }
    ensures tells { S.tells store.new ≡ S.tells store.old }
    ensures cause { FilesCause result (S.faults store.old) (S.faults store.new) (S.last store.old) (S.last store.new) }
    ensures state { IfOk result (λ τ. τ ≡ record state { next_snapshot = raised64 state.next_snapshot 1 }) }
    ensures keeps { OnOk result (KeepsOwn course.now.own.now (S.tells store.old) (S.file store.old) (S.file store.new)) }
    ensures ok { OnOk result (Writes S.Store store.old store.new course.now (Snapshot state.next_snapshot state)) }
    ensures err { OnErr result (BeginsFile S.Store store.old store.new course.now (Snapshot state.next_snapshot state)) }
    ensures fault { IfErr result (Blames (file_name course.now.params.now (Snapshot state.next_snapshot state) ∷ [])) }
{
    let params = course.params;
    let Ok(name) = numbered(alloc, &params.snapshot_file_base, state.next_snapshot) else {
        return Err(Failure::Memory);
    };
    let number = (state.next_snapshot % (1 << 32)) as u32;
    match write_snapshot_file(alloc, store, &name, &state.set, state.tick, number) {
        Ok(()) => {}
        Err(failure) => return Err(failure),
    }
    Ok(State {
        next_snapshot: state.next_snapshot.wrapping_add(1),
        ..state
    })
}

/// Writes the next restart file.
pub(crate) fn save<S: Store>(
    alloc: Global,
    course: &Course,
    state: State,
    store: &mut S,
) -> Result<State, Failure>
    requires others { AreOthers course.now.params.now course.now.own.now }
    requires setup { course.now.setup.now ≡ setup_of course.now.params.now }
    ensures tells { S.tells store.new ≡ S.tells store.old }
    ensures cause { FilesCause result (S.faults store.old) (S.faults store.new) (S.last store.old) (S.last store.new) }
    ensures state { IfOk result (λ τ. τ ≡ kept state) }
    ensures keeps { OnOk result (KeepsOwn course.now.own.now (S.tells store.old) (S.file store.old) (S.file store.new)) }
    ensures ok { OnOk result (Writes S.Store store.old store.new course.now (Restart state.next_restart (kept state))) }
    ensures err { OnErr result (BeginsFile S.Store store.old store.new course.now (Restart state.next_restart (kept state))) }
    ensures fault { IfErr result (Blames (file_name course.now.params.now (Restart state.next_restart (kept state)) ∷ [])) }
{
    let params = course.params;
    let Ok(name) = numbered(alloc, &params.restart_file_base, state.next_restart) else {
        return Err(Failure::Memory);
    };
    let raised = State {
        next_restart: state.next_restart.wrapping_add(1),
        ..state
    };
    match write_restart_file(alloc, store, &name, &raised, course.setup) {
        Ok(()) => Ok(raised),
        Err(failure) => Err(failure),
    }
}
