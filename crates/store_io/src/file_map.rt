// Files in a map from names to bytes.
ghost use Rattle.std.specs.Prelude.{◌≡◌, ◌+◌, ◌≤◌, ◌++◌, length, slice_range, Option, Some, IsSome, OnOk, OnErr};
ghost use Rattle.store_io.specs.FileMap.{files_in};
ghost use Rattle.store_io.specs.Files.{bytes_of, ChangesOnly};

use crate::Text;
use fixed_point::Memory;
use std::alloc::Global;
use std::collections::BTreeMap;

/// Puts a file in the place of any of this name.
pub fn put_in(
    alloc: Global,
    files: &mut BTreeMap<Vec<u8>, Vec<u8>>,
    name: &Text,
    bytes: &[u8],
) -> Result<(), Memory>
    ensures ok { OnOk result (ChangesOnly (files_in files.old) (files_in files.new)
        name.now (Some bytes.now)) }
    ensures err { OnErr result (files_in files.new ≡ files_in files.old) }
{
    let key = Vec::from_slice(alloc, name.bytes())?;
    let bytes = Vec::from_slice(alloc, bytes)?;
    files.insert(key, bytes)?;
    Ok(())
}

/// Puts bytes behind those of a file.
pub fn append_in(
    files: &mut BTreeMap<Vec<u8>, Vec<u8>>,
    name: &Text,
    bytes: &[u8],
) -> Result<(), Memory>
    requires { IsSome (files_in files.old name.now) }
    ensures ok { OnOk result (ChangesOnly (files_in files.old) (files_in files.new) name.now
        (Some (bytes_of (files_in files.old name.now) ++ bytes.now))) }
    ensures err { OnErr result (ChangesOnly (files_in files.old) (files_in files.new) name.now
        (Some (bytes_of (files_in files.old name.now)))) }
{
    match files.get_mut(name.bytes()) {
        Some(file) => Ok(file.extend_from_slice(bytes)?),
        None => unreachable!(),
    }
}

/// The bytes from a place on.
pub fn copy_from(bytes: &[u8], at: u64, buf: &mut [u8])
    requires { at + length buf.old ≤ length bytes.now }
    ensures { buf.new ≡ slice_range bytes.now at (at + length buf.new) }
{
    let at = at as usize;
    let end = at + buf.len();
    buf.copy_from_slice(&bytes[at..end]);
}
