// What reading a snapshot gives after it was written.
ghost use Rattle.snap_file.specs.Exact.{ReadOneWay};
ghost use Rattle.snap_file.specs.Stored.{IsReadBack};

use particle_set::{BodySet, are_storable};

/// The text of a snapshot of these bodies is read to its head and to the same bodies. It reads each body once.
pub fn written_snapshots_are_read(set: &BodySet, tick: u64, number: u32)
    ensures { IsReadBack set.now tick number }
{
    are_storable(set.bodies());
}

/// Bytes have at most one head and are a snapshot of at most one set. What has a head has no fault of the
/// head, and a snapshot has no fault at all, but for want of memory.
pub fn reading_is_exact(bytes: &[u8])
    ensures { ReadOneWay bytes.now }
{}
