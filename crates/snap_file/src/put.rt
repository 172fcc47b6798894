// Writes snapshots to a store.
ghost use Rattle.std.specs.Prelude.{◌≡◌, false, OnOk, OnErr};
ghost use Rattle.store_io.specs.Causes.{io_failed};
ghost use Rattle.store_io.specs.Told.{Causes, IsEmpty, Puts, PutsPart};
ghost use Rattle.nbody_model.specs.SnapshotText.{snapshot_text};

use crate::write_snapshot;
use particle_set::BodySet;
use std::alloc::Global;
use store_io::{IoErr, Store, Text, append_pieces};

/// Appends the text of a snapshot to an empty file, in pieces of 65,536 bytes, the last one shorter.
pub fn put_snapshot<S: Store>(
    alloc: Global,
    set: &BodySet,
    tick: u64,
    number: u32,
    store: &mut S,
    name: &Text,
) -> Result<(), IoErr>
    requires { IsEmpty S.Store store.old name.now }
    ensures tells { S.tells store.new ≡ S.tells store.old }
    ensures closed { S.closed store.new ≡ S.closed store.old }
    ensures ok { OnOk result (Puts S.Store store.old store.new name.now (snapshot_text set.now tick number)) }
    ensures err { OnErr result (PutsPart S.Store store.old store.new name.now (snapshot_text set.now tick number)) }
    ensures cause { Causes S.Store store.old store.new (io_failed result) (name.now, false) }
{
    let text = write_snapshot(alloc, set, tick, number)?;
    append_pieces(store, name, &text)
}
