// Files that are made, written and finished, and the answer where that fails.
ghost use Rattle.std.specs.Prelude.{◌≡◌, ◌⊎◌, ◌++◌, ◌∷◌, [], false, Some, IsTrue, IsSome, IfErr, OnOk, OnErr};
ghost use Rattle.store_io.specs.Causes.{HasCause, io_failed};
ghost use Rattle.store_io.specs.Files.{bytes_of, ChangesOnly, AppendsPart};
ghost use Rattle.nbody_model.specs.RestartText.{restart_text};
ghost use Rattle.nbody_model.specs.SnapshotText.{snapshot_text};
ghost use Rattle.run_session.specs.Causes.{Blames, FilesCause};
ghost use Rattle.run_session.specs.Changes.{WritesPart};

use crate::failure::Failure;
use nbody_model::Setup;
use particle_set::BodySet;
use restart_files::{State, put_restart};
use snap_file::put_snapshot;
use std::alloc::Global;
use store_io::{IoErr, Store, Text};

// Why a call on a file of this name has failed.
fn failure_of(alloc: Global, name: &Text, err: IoErr) -> Failure
    ensures { (result ≡ Failure.Memory) ⊎ ((err ≡ IoErr.Failed) × (result ≡ Failure.WriteFault name.now)) }
{
    match err {
        IoErr::Memory => Failure::Memory,
        IoErr::Failed => match Text::from_bytes(alloc, name.bytes()) {
            Ok(name) => Failure::WriteFault { name },
            Err(_) => Failure::Memory,
        },
    }
}

/// Makes an empty file.
pub(crate) fn create_file<S: Store>(
    alloc: Global,
    store: &mut S,
    name: &Text,
) -> Result<(), Failure>
    ensures tells { S.tells store.new ≡ S.tells store.old }
    ensures closed { S.closed store.new ≡ S.closed store.old }
    ensures ok { OnOk result (IsTrue (S.tells store.old)
        → ChangesOnly (S.file store.old) (S.file store.new) name.now (Some [])) }
    ensures err { OnErr result (IsTrue (S.tells store.old)
        → (S.file store.new ≡ S.file store.old) ⊎ ChangesOnly (S.file store.old) (S.file store.new) name.now (Some [])) }
    ensures fault { IfErr result (Blames (name.now ∷ [])) }
    ensures cause { FilesCause result (S.faults store.old) (S.faults store.new) (S.last store.old) (S.last store.new) }
{
    match store.create(name) {
        Ok(()) => Ok(()),
        Err(err) => Err(failure_of(alloc, name, err)),
    }
}

/// Puts bytes behind those of a file.
pub(crate) fn append_to<S: Store>(
    alloc: Global,
    store: &mut S,
    name: &Text,
    bytes: &[u8],
) -> Result<(), Failure>
    requires { IsTrue (S.tells store.old) → IsSome (S.file store.old name.now) }
    ensures tells { S.tells store.new ≡ S.tells store.old }
    ensures closed { S.closed store.new ≡ S.closed store.old }
    ensures ok { OnOk result (IsTrue (S.tells store.old)
        → ChangesOnly (S.file store.old) (S.file store.new) name.now (Some (bytes_of (S.file store.old name.now) ++ bytes.now))) }
    ensures err { OnErr result (IsTrue (S.tells store.old)
        → AppendsPart (S.file store.old) (S.file store.new) name.now bytes.now) }
    ensures fault { IfErr result (Blames (name.now ∷ [])) }
    ensures cause { FilesCause result (S.faults store.old) (S.faults store.new) (S.last store.old) (S.last store.new) }
{
    match store.append(name, bytes) {
        Ok(()) => Ok(()),
        Err(err) => Err(failure_of(alloc, name, err)),
    }
}

/// Finishes a file.
pub(crate) fn close_file<S: Store>(alloc: Global, store: &mut S, name: &Text) -> Result<(), Failure>
    requires { IsTrue (S.tells store.old) → IsSome (S.file store.old name.now) }
    ensures tells { S.tells store.new ≡ S.tells store.old }
    ensures files { S.file store.new ≡ S.file store.old }
    ensures ok { OnOk result (IsTrue (S.tells store.old) → S.closed store.new ≡ S.closed store.old ++ name.now ∷ []) }
    ensures err { OnErr result (S.closed store.new ≡ S.closed store.old) }
    ensures fault { IfErr result (Blames (name.now ∷ [])) }
    ensures cause { FilesCause result (S.faults store.old) (S.faults store.new) (S.last store.old) (S.last store.new) }
{
    match store.close(name) {
        Ok(()) => Ok(()),
        Err(err) => Err(failure_of(alloc, name, err)),
    }
}

// ---- whole files

// A snapshot file, made, written and finished.
fn make_snapshot<S: Store>(
    alloc: Global,
    store: &mut S,
    name: &Text,
    set: &BodySet,
    tick: u64,
    number: u32,
) -> Result<(), IoErr>
    ensures tells { S.tells store.new ≡ S.tells store.old }
    ensures ok { OnOk result (IsTrue (S.tells store.old)
        → ChangesOnly (S.file store.old) (S.file store.new) name.now (Some (snapshot_text set.now tick number))) }
    ensures closed { OnOk result (IsTrue (S.tells store.old) → S.closed store.new ≡ S.closed store.old ++ name.now ∷ []) }
    ensures err { OnErr result (IsTrue (S.tells store.old)
        → WritesPart (S.file store.old) (S.file store.new) name.now (snapshot_text set.now tick number)) }
    ensures closed_err { OnErr result (S.closed store.new ≡ S.closed store.old) }
    ensures cause { HasCause (io_failed result) (name.now, false)
        (S.faults store.old) (S.faults store.new) (S.last store.old) (S.last store.new) }
{
    store.create(name)?;
    put_snapshot(alloc, set, tick, number, store, name)?;
    store.close(name)
}

/// Writes a snapshot file and finishes it.
pub(crate) fn write_snapshot_file<S: Store>(
    alloc: Global,
    store: &mut S,
    name: &Text,
    set: &BodySet,
    tick: u64,
    number: u32,
) -> Result<(), Failure>
    ensures tells { S.tells store.new ≡ S.tells store.old }
    ensures ok { OnOk result (IsTrue (S.tells store.old)
        → ChangesOnly (S.file store.old) (S.file store.new) name.now (Some (snapshot_text set.now tick number))) }
    ensures closed { OnOk result (IsTrue (S.tells store.old) → S.closed store.new ≡ S.closed store.old ++ name.now ∷ []) }
    ensures err { OnErr result (IsTrue (S.tells store.old)
        → WritesPart (S.file store.old) (S.file store.new) name.now (snapshot_text set.now tick number)) }
    ensures closed_err { OnErr result (S.closed store.new ≡ S.closed store.old) }
    ensures fault { IfErr result (Blames (name.now ∷ [])) }
    ensures cause { FilesCause result (S.faults store.old) (S.faults store.new) (S.last store.old) (S.last store.new) }
{
    match make_snapshot(alloc, store, name, set, tick, number) {
        Ok(()) => Ok(()),
        Err(err) => Err(failure_of(alloc, name, err)),
    }
}

// A restart file, made, written and finished.
fn make_restart<S: Store>(
    alloc: Global,
    store: &mut S,
    name: &Text,
    state: &State,
    setup: &Setup,
) -> Result<(), IoErr>
    ensures tells { S.tells store.new ≡ S.tells store.old }
    ensures ok { OnOk result (IsTrue (S.tells store.old)
        → ChangesOnly (S.file store.old) (S.file store.new) name.now (Some (restart_text state.now setup.now))) }
    ensures closed { OnOk result (IsTrue (S.tells store.old) → S.closed store.new ≡ S.closed store.old ++ name.now ∷ []) }
    ensures err { OnErr result (IsTrue (S.tells store.old)
        → WritesPart (S.file store.old) (S.file store.new) name.now (restart_text state.now setup.now)) }
    ensures closed_err { OnErr result (S.closed store.new ≡ S.closed store.old) }
    ensures cause { HasCause (io_failed result) (name.now, false)
        (S.faults store.old) (S.faults store.new) (S.last store.old) (S.last store.new) }
{
    store.create(name)?;
    put_restart(alloc, state, setup, store, name)?;
    store.close(name)
}

/// Writes a restart file and finishes it. The numbers of the state are written as they are.
pub(crate) fn write_restart_file<S: Store>(
    alloc: Global,
    store: &mut S,
    name: &Text,
    state: &State,
    setup: &Setup,
) -> Result<(), Failure>
    ensures tells { S.tells store.new ≡ S.tells store.old }
    ensures ok { OnOk result (IsTrue (S.tells store.old)
        → ChangesOnly (S.file store.old) (S.file store.new) name.now (Some (restart_text state.now setup.now))) }
    ensures closed { OnOk result (IsTrue (S.tells store.old) → S.closed store.new ≡ S.closed store.old ++ name.now ∷ []) }
    ensures err { OnErr result (IsTrue (S.tells store.old)
        → WritesPart (S.file store.old) (S.file store.new) name.now (restart_text state.now setup.now)) }
    ensures closed_err { OnErr result (S.closed store.new ≡ S.closed store.old) }
    ensures fault { IfErr result (Blames (name.now ∷ [])) }
    ensures cause { FilesCause result (S.faults store.old) (S.faults store.new) (S.last store.old) (S.last store.new) }
{
    match make_restart(alloc, store, name, state, setup) {
        Ok(()) => Ok(()),
        Err(err) => Err(failure_of(alloc, name, err)),
    }
}
