// Writes restart files to a store.
ghost use Rattle.std.specs.Prelude.{◌≡◌, [], Option, Some, false, Bool, IsTrue, OnOk, OnErr};
ghost use Rattle.store_io.specs.Causes.{HasCause, io_failed};
ghost use Rattle.store_io.specs.Files.{ChangesOnly, AppendsPart};
ghost use Rattle.nbody_model.specs.RestartText.{restart_text};

use crate::{State, write_restart};
use nbody_model::Setup;
use std::alloc::Global;
use store_io::{IoErr, Store, Text, append_pieces};

/// Appends the bytes of a restart file to an empty file, in pieces of 65,536 bytes, the last one shorter. The numbers of the
/// state are written as they are.
pub fn put_restart<S: Store>(
    alloc: Global,
    state: &State,
    setup: &Setup,
    store: &mut S,
    name: &Text,
) -> Result<(), IoErr>
    requires { IsTrue (S.tells store.old) → S.file store.old name.now ≡ Some [] }
    ensures tells { S.tells store.new ≡ S.tells store.old }
    ensures closed { S.closed store.new ≡ S.closed store.old }
    ensures ok { OnOk result (IsTrue (S.tells store.old)
        → ChangesOnly (S.file store.old) (S.file store.new) name.now (Some (restart_text state.now setup.now))) }
    ensures err { OnErr result (IsTrue (S.tells store.old)
        → AppendsPart (S.file store.old) (S.file store.new) name.now (restart_text state.now setup.now)) }
    ensures cause { HasCause (io_failed result) (name.now, false)
        (S.faults store.old) (S.faults store.new) (S.last store.old) (S.last store.new) }
{
    let text = write_restart(alloc, state, setup)?;
    append_pieces(store, name, &text)
}
