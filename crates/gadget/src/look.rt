// The commands that read and write nothing: what a parameter file names, and what a snapshot holds.
ghost use Rattle.std.specs.Prelude.{◌≡◌};
ghost use Rattle.store_io.specs.Told.{IsQuiet, KeepsFiles, Tells};
ghost use Rattle.gadget.specs.Reads.{seen_by};
ghost use Rattle.gadget.specs.Answers.{CheckDoes, ShowDoes};

use crate::begins::load_run;
use crate::outcome::Outcome;
use crate::snapshots::load_snapshot;
use std::alloc::Global;
use store_io::{Store, Text};

/// Reads what a run by this parameter file would read, and tells its bodies.
pub fn check<S: Store>(alloc: Global, store: &mut S, param: &Text) -> Outcome
    ensures keeps { KeepsFiles S.Store store.old store.new }
    ensures does { CheckDoes (seen_by S.Store store.old store.new) param.now result }
{
    match load_run(alloc, store, param) {
        Ok((_inputs, set)) => Outcome::Checked { set },
        Err(status) => Outcome::Refused(status),
    }
}

/// Reads a snapshot, and tells its head and its bodies.
pub fn show<S: Store>(alloc: Global, store: &mut S, name: &Text) -> Outcome
    ensures keeps { KeepsFiles S.Store store.old store.new }
    ensures does { ShowDoes (seen_by S.Store store.old store.new) name.now result }
{
    match load_snapshot(alloc, store, name) {
        Ok((head, set)) => Outcome::Shown { head, set },
        Err(status) => Outcome::Refused(status),
    }
}
