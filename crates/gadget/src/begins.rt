// What a run begins with: a snapshot at tick 0, or the state of a restart file.
ghost use Rattle.std.specs.Prelude.{◌≡◌, IsTrue, IfOk, IfErr, IfSome, OnOk};
ghost use Rattle.nbody_model.specs.Setups.{last_tick};
ghost use Rattle.nbody_model.specs.Tables.{IsTable, Reaches};
ghost use Rattle.param_file.specs.Settings.{setup_of};
ghost use Rattle.restart_files.specs.Stored.{IsKept};
ghost use Rattle.store_io.specs.Told.{IsQuiet, KeepsFiles, Tells};
ghost use Rattle.gadget.specs.Reads.{seen_by};
ghost use Rattle.gadget.specs.Inputs.{inputs_of};
ghost use Rattle.gadget.specs.Begins.{BeginsWith, GoesOnFrom, ResumeRefusal, RunRefusal};

use crate::inputs::{Inputs, load_inputs};
use crate::restarts::{check_settings, load_restart};
use crate::snapshots::load_bodies;
use crate::status::Status;
use particle_set::BodySet;
use restart_files::State;
use std::alloc::Global;
use store_io::{Store, Text};

/// Reads a parameter file, then the list, the tables and the snapshot that it names.
pub fn load_run<S: Store>(
    alloc: Global,
    store: &mut S,
    name: &Text,
) -> Result<(Inputs, BodySet), Status>
    ensures keeps { KeepsFiles S.Store store.old store.new }
    ensures ok { IfOk result (λ r. Tells S.Store store.old → BeginsWith (S.file store.old) name.now (inputs_of r.0) r.1) }
    ensures sound { IfOk result (λ r. IfSome r.0.table IsTable) }
    ensures reach { IfOk result (λ r. IfSome r.0.factors (λ e. Reaches e (last_tick (setup_of r.0.params)))) }
    ensures quiet { OnOk result (IsQuiet S.Store store.old store.new) }
    ensures err { IfErr result (RunRefusal (seen_by S.Store store.old store.new) name.now) }
{
    let inputs = match load_inputs(alloc, store, name) {
        Ok(inputs) => inputs,
        Err(status) => return Err(status),
    };
    match load_bodies(alloc, store, &inputs.params.init_cond_file) {
        Ok(set) => Ok((inputs, set)),
        Err(status) => Err(status),
    }
}

/// Reads a parameter file, then the list and the tables that it names, and a restart file, which is to be of the same
/// settings.
pub fn load_resume<S: Store>(
    alloc: Global,
    store: &mut S,
    name: &Text,
    restart: &Text,
) -> Result<(Inputs, State), Status>
    ensures keeps { KeepsFiles S.Store store.old store.new }
    ensures ok { IfOk result (λ r. Tells S.Store store.old → GoesOnFrom (S.file store.old) name.now restart.now (inputs_of r.0) r.1) }
    ensures sound { IfOk result (λ r. IfSome r.0.table IsTable) }
    ensures reach { IfOk result (λ r. IfSome r.0.factors (λ e. Reaches e (last_tick (setup_of r.0.params)))) }
    ensures kept { IfOk result (λ r. IsKept (setup_of r.0.params) r.1) }
    ensures quiet { OnOk result (IsQuiet S.Store store.old store.new) }
    ensures err { IfErr result (ResumeRefusal (seen_by S.Store store.old store.new) name.now restart.now) }
{
    let inputs = match load_inputs(alloc, store, name) {
        Ok(inputs) => inputs,
        Err(status) => return Err(status),
    };
    let (state, kept) = match load_restart(alloc, store, restart) {
        Ok(kept) => kept,
        Err(status) => return Err(status),
    };
    match check_settings(&kept, &inputs.params) {
        Ok(()) => Ok((inputs, state)),
        Err(status) => Err(status),
    }
}
