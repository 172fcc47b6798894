// The one file that a command writes.
ghost use Rattle.std.specs.Prelude.{◌≡◌, ◌∷◌, [], ◌++◌, false, IfErr, OnOk};
ghost use Rattle.store_io.specs.Causes.{io_failed};
ghost use Rattle.store_io.specs.Told.{Causes, Puts, Tells};
ghost use Rattle.made_bodies.specs.Made.{WritesPart};
ghost use Rattle.gadget.specs.NamedFile.{IsCutShortBy, IsPutBy};

use crate::status::Status;
use made_bodies::put_file;
use store_io::{IoErr, Store, Text};

/// Makes a file of this name with this text, and finishes it; or the answer where that couldn't be done.
pub fn write_file<S: Store>(store: &mut S, name: Text, text: &[u8]) -> Result<(), Status>
    ensures tells { S.tells store.new ≡ S.tells store.old }
    ensures ok { OnOk result (IsPutBy S.Store store.old store.new name text.now) }
    ensures err { IfErr result (IsCutShortBy S.Store store.old store.new name text.now) }
{
    match put_file(store, &name, text) {
        Ok(()) => Ok(()),
        Err(IoErr::Failed) => Err(Status::WriteFault { name }),
        Err(IoErr::Memory) => Err(Status::Memory),
    }
}
