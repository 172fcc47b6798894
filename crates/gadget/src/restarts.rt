// The restart file that a run goes on from.
ghost use Rattle.std.specs.Prelude.{◌≡◌, ℕ, List, IsTrue, IfOk, IfErr, OnOk};
ghost use Rattle.restart_files.specs.RestartFile.{IsFirstFault, Spell as SpellState};
ghost use Rattle.restart_files.specs.Stored.{IsKept};
ghost use Rattle.param_file.specs.Settings.{setup_of};
ghost use Rattle.store_io.specs.Told.{IsQuiet, KeepsFiles, Tells};
ghost use Rattle.gadget.specs.Reads.{seen_by};
ghost use Rattle.gadget.specs.Restarts.{DiffersIn, NamesState, RestartAnswer, RestartRefusal};

use crate::inputs::read_file;
use crate::status::Status;
use nbody_model::Setup;
use param_file::Params;
use particle_set::SetErr;
use restart_files::{RestartErr, State, read_restart, same_params};
use std::alloc::Global;
use store_io::{Store, Text};

/// The longest restart file, in bytes.
const LONGEST_RESTART: u64 = 268_435_456;

// The answer for a restart file that was refused.
#[tactic(auto, using(crate::proofs::Plain::plain_restart))]
fn refused(err: RestartErr) -> Status
    ensures { (bytes : List ℕ) → IsFirstFault bytes err → RestartAnswer bytes result }
{
    match err {
        RestartErr::Memory | RestartErr::Bodies(SetErr::Memory) => Status::Memory,
        _ => Status::Restart(err),
    }
}

// The state and the settings that bytes spell.
fn state_of(alloc: Global, bytes: &[u8]) -> Result<(State, Setup), Status>
    ensures ok { IfOk result (λ r. SpellState bytes.now r.0 r.1) }
    ensures kept { IfOk result (λ r. IsKept r.1 r.0) }
    ensures err { IfErr result (RestartAnswer bytes.now) }
{
    match read_restart(alloc, bytes) {
        Ok(kept) => Ok(kept),
        Err(err) => Err(refused(err)),
    }
}

/// Reads a restart file: a state from which a run goes on, and the settings by which it was kept.
pub fn load_restart<S: Store>(
    alloc: Global,
    store: &mut S,
    name: &Text,
) -> Result<(State, Setup), Status>
    ensures keeps { KeepsFiles S.Store store.old store.new }
    ensures ok { IfOk result (λ r. Tells S.Store store.old → NamesState (S.file store.old) name.now r.0 r.1) }
    ensures kept { IfOk result (λ r. IsKept r.1 r.0) }
    ensures quiet { OnOk result (IsQuiet S.Store store.old store.new) }
    ensures err { IfErr result (RestartRefusal (seen_by S.Store store.old store.new) name.now) }
{
    let bytes = match read_file(alloc, store, name, LONGEST_RESTART) {
        Ok(bytes) => bytes,
        Err(status) => return Err(status),
    };
    state_of(alloc, &bytes)
}

/// Whether a kept run goes by these settings; or the first in which it differs.
pub fn check_settings(kept: &Setup, params: &Params) -> Result<(), Status>
    ensures ok { OnOk result (kept.now ≡ setup_of params.now) }
    ensures err { IfErr result (DiffersIn kept.now (setup_of params.now)) }
{
    match same_params(kept, &params.setup()) {
        Ok(()) => Ok(()),
        Err(differs) => Err(Status::Differs { name: differs.name }),
    }
}
