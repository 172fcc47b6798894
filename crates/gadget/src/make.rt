// The command that makes bodies.
ghost use Rattle.std.specs.Prelude.{◌≡◌, ◌≤◌, ◌++◌, codes, IfOk};
ghost use Rattle.gadget.specs.Making.{MakesBy, status_by};
ghost use Rattle.gadget.specs.Texts.{made_text};

use crate::outcome::Outcome;
use crate::status::Status;
use crate::texts::push_counted;
use fixed_point::Memory;
use made_bodies::MakeErr;
use std::alloc::Global;
use store_io::{Store, Text};

// The answer for files that weren't made.
fn refused(err: MakeErr) -> Status
    ensures { result ≡ status_by err }
{
    match err {
        MakeErr::WriteFault { name } => Status::WriteFault { name },
        MakeErr::Memory => Status::Memory,
    }
}

/// Writes so many bodies that are drawn from a seed, and the parameter file of a run that begins with them.
pub fn make<S: Store>(alloc: Global, store: &mut S, count: u64, seed: u64, name: &Text) -> Outcome
    requires { count ≤ 1048576 }
    ensures tells { S.tells store.new ≡ S.tells store.old }
    ensures does { MakesBy S.Store store.old store.new count seed name.now result }
{
    let made = match Text::from_bytes(alloc, name.bytes()) {
        Ok(made) => made,
        Err(Memory) => return Outcome::Refused(Status::Memory),
    };
    match made_bodies::make(alloc, count, seed, name, store) {
        Ok(()) => Outcome::Made { count, name: made },
        Err(err) => Outcome::Refused(refused(err)),
    }
}

/// The line of bodies that were made: how many, and in which snapshot.
pub fn made_line(alloc: Global, count: u64, name: &Text) -> Result<Vec<u8>, Memory>
    ensures { IfOk result (λ line. line.items ≡ made_text count name.now) }
{
    let mut line = Vec::new(alloc);
    push_counted(&mut line, b"made", u128::from(count))?;
    line.extend_from_slice(b" bodies in ")?;
    line.extend_from_slice(name.bytes())?;
    line.extend_from_slice(b".ics\n")?;
    Ok(line)
}
