// The snapshot that a run begins with, or that is to be shown.
ghost use Rattle.std.specs.Prelude.{◌≡◌, ℕ, List, IsTrue, IfOk, IfErr, OnOk};
ghost use Rattle.snap_file.specs.Snapshots.{IsHeadFault, IsSnapshotFault, SpellsHead, SpellsSnapshot};
ghost use Rattle.store_io.specs.Told.{IsQuiet, KeepsFiles, Tells};
ghost use Rattle.gadget.specs.Reads.{seen_by};
ghost use Rattle.gadget.specs.Snapshots.{NamesBodies, NamesSnapshot, SnapshotRefusal, SnapshotAnswer};

use crate::inputs::read_file;
use crate::status::Status;
use particle_set::{BodySet, SetErr};
use snap_file::{Head, SnapErr, read_head, read_snapshot};
use std::alloc::Global;
use store_io::{Store, Text};

/// The longest snapshot, in bytes.
const LONGEST_SNAPSHOT: u64 = 268_435_456;

// The answer for a snapshot that was refused.
#[tactic(auto, using(crate::proofs::Plain::plain_snapshot))]
fn refused(err: SnapErr) -> Status
    ensures { (bytes : List ℕ) → IsSnapshotFault bytes err → SnapshotAnswer bytes result }
{
    match err {
        SnapErr::Memory | SnapErr::Bodies(SetErr::Memory) => Status::Memory,
        _ => Status::Snapshot(err),
    }
}

// The bodies that bytes spell.
fn bodies_of(alloc: Global, bytes: &[u8]) -> Result<BodySet, Status>
    ensures ok { IfOk result (SpellsSnapshot bytes.now) }
    ensures err { IfErr result (SnapshotAnswer bytes.now) }
{
    match read_snapshot(alloc, bytes) {
        Ok(set) => Ok(set),
        Err(err) => Err(refused(err)),
    }
}

// The head that bytes spell.
fn head_of(alloc: Global, bytes: &[u8]) -> Result<Head, Status>
    ensures ok { IfOk result (SpellsHead bytes.now) }
    ensures err { IfErr result (SnapshotAnswer bytes.now) }
{
    match read_head(alloc, bytes) {
        Ok(head) => Ok(head),
        Err(err) => Err(refused(err)),
    }
}

/// Reads a snapshot, its head too.
pub fn load_snapshot<S: Store>(
    alloc: Global,
    store: &mut S,
    name: &Text,
) -> Result<(Head, BodySet), Status>
    ensures keeps { KeepsFiles S.Store store.old store.new }
    ensures ok { IfOk result (λ r. Tells S.Store store.old → NamesSnapshot (S.file store.old) name.now r.0 r.1) }
    ensures quiet { OnOk result (IsQuiet S.Store store.old store.new) }
    ensures err { IfErr result (SnapshotRefusal (seen_by S.Store store.old store.new) name.now) }
{
    let bytes = match read_file(alloc, store, name, LONGEST_SNAPSHOT) {
        Ok(bytes) => bytes,
        Err(status) => return Err(status),
    };
    let head = match head_of(alloc, &bytes) {
        Ok(head) => head,
        Err(status) => return Err(status),
    };
    match bodies_of(alloc, &bytes) {
        Ok(set) => Ok((head, set)),
        Err(status) => Err(status),
    }
}

/// Reads the bodies of a snapshot.
pub fn load_bodies<S: Store>(alloc: Global, store: &mut S, name: &Text) -> Result<BodySet, Status>
    ensures keeps { KeepsFiles S.Store store.old store.new }
    ensures ok { IfOk result (λ B. Tells S.Store store.old → NamesBodies (S.file store.old) name.now B) }
    ensures quiet { OnOk result (IsQuiet S.Store store.old store.new) }
    ensures err { IfErr result (SnapshotRefusal (seen_by S.Store store.old store.new) name.now) }
{
    let bytes = match read_file(alloc, store, name, LONGEST_SNAPSHOT) {
        Ok(bytes) => bytes,
        Err(status) => return Err(status),
    };
    bodies_of(alloc, &bytes)
}
