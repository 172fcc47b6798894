// A catalogue whose groups are to be linked.
ghost use Rattle.std.specs.Prelude.{◌≡◌, ◌<◌, ◌^◌, ℕ, List, length, IfOk, IfErr, OnOk};
ghost use Rattle.group_file.specs.Catalogues.{IsGood};
ghost use Rattle.group_file.specs.GroupFile.{IsFirstFault, Spell};
ghost use Rattle.store_io.specs.Told.{IsQuiet, KeepsFiles, Tells};
ghost use Rattle.gadget.specs.Reads.{seen_by};
ghost use Rattle.gadget.specs.Catalogues.{CatalogueAnswer, CatalogueRefusal, NamesCatalogue};

use crate::inputs::read_file;
use crate::status::Status;
use fixed_point::Memory;
use group_file::{Catalogue, GroupErr, read_groups};
use std::alloc::Global;
use store_io::{Store, Text};

/// The longest catalogue, in bytes.
const LONGEST_CATALOGUE: u64 = 268_435_456;

// The answer for a catalogue that was refused.
fn refused(alloc: Global, name: &Text, kind: GroupErr) -> Status
    ensures { (bytes : List ℕ) → IsFirstFault bytes kind → CatalogueAnswer name.now bytes result }
{
    if kind == GroupErr::Memory {
        return Status::Memory;
    }
    match Text::from_bytes(alloc, name.bytes()) {
        Ok(name) => Status::Catalogue { name, kind },
        Err(Memory) => Status::Memory,
    }
}

// The catalogue that bytes spell.
fn catalogue_of(alloc: Global, name: &Text, bytes: &[u8]) -> Result<Catalogue, Status>
    ensures ok { IfOk result (Spell bytes.now) }
    ensures good { IfOk result IsGood }
    ensures few { IfOk result (λ C. length C < 2 ^ 32) }
    ensures err { IfErr result (CatalogueAnswer name.now bytes.now) }
{
    match read_groups(alloc, bytes) {
        Ok(catalogue) => Ok(catalogue),
        Err(kind) => Err(refused(alloc, name, kind)),
    }
}

/// Reads a catalogue.
pub fn load_catalogue<S: Store>(
    alloc: Global,
    store: &mut S,
    name: &Text,
) -> Result<Catalogue, Status>
    ensures keeps { KeepsFiles S.Store store.old store.new }
    ensures ok { IfOk result (λ C. Tells S.Store store.old → NamesCatalogue (S.file store.old) name.now C) }
    ensures good { IfOk result IsGood }
    ensures few { IfOk result (λ C. length C < 2 ^ 32) }
    ensures quiet { OnOk result (IsQuiet S.Store store.old store.new) }
    ensures err { IfErr result (CatalogueRefusal (seen_by S.Store store.old store.new) name.now) }
{
    let bytes = match read_file(alloc, store, name, LONGEST_CATALOGUE) {
        Ok(bytes) => bytes,
        Err(status) => return Err(status),
    };
    catalogue_of(alloc, name, &bytes)
}
