// The table of corrections that a parameter file may name.
ghost use Rattle.std.specs.Prelude.{IfOk, IfErr, IfSome, OnOk};
ghost use Rattle.nbody_model.specs.Tables.{IsTable};
ghost use Rattle.ewald_table.specs.TableFile.{Spell as SpellTable};
ghost use Rattle.gadget.specs.Reads.{seen_by};
ghost use Rattle.store_io.specs.Told.{IsQuiet, KeepsFiles, Tells};
ghost use Rattle.gadget.specs.Tables.{GivesTable, NamedTableRefusal, NamesTable, TableAnswer, TableRefusal};

use crate::inputs::read_file;
use crate::status::Status;
use ewald_table::{Table, TableErr, read_table};
use param_file::Params;
use std::alloc::Global;
use store_io::{Store, Text};

/// The longest table, in bytes.
const LONGEST_TABLE: u64 = 4_194_304;

// The table that bytes spell.
#[tactic(auto, using(crate::proofs::SoundTables::spelled_sound))]
fn table_of(alloc: Global, bytes: &[u8]) -> Result<Table, Status>
    ensures ok { IfOk result (SpellTable bytes.now) }
    ensures sound { IfOk result IsTable }
    ensures err { IfErr result (TableAnswer bytes.now) }
{
    match read_table(alloc, bytes) {
        Ok(table) => Ok(table),
        Err(TableErr::Memory) => Err(Status::Memory),
        Err(err) => Err(Status::Table(err)),
    }
}

// Reads a table.
fn load_table<S: Store>(alloc: Global, store: &mut S, name: &Text) -> Result<Table, Status>
    ensures keeps { KeepsFiles S.Store store.old store.new }
    ensures ok { IfOk result (λ t. Tells S.Store store.old → NamesTable (S.file store.old) name.now t) }
    ensures sound { IfOk result IsTable }
    ensures quiet { OnOk result (IsQuiet S.Store store.old store.new) }
    ensures err { IfErr result (NamedTableRefusal (seen_by S.Store store.old store.new) name.now) }
{
    let bytes = match read_file(alloc, store, name, LONGEST_TABLE) {
        Ok(bytes) => bytes,
        Err(status) => return Err(status),
    };
    table_of(alloc, &bytes)
}

/// Reads the table of corrections, which keeps its limits; none where no table is named.
pub fn load_corrections<S: Store>(
    alloc: Global,
    store: &mut S,
    params: &Params,
) -> Result<Option<Table>, Status>
    ensures keeps { KeepsFiles S.Store store.old store.new }
    ensures ok { IfOk result (λ t. Tells S.Store store.old → GivesTable (S.file store.old) params.now.ewald_table_file t) }
    ensures sound { IfOk result (λ t. IfSome t IsTable) }
    ensures quiet { OnOk result (IsQuiet S.Store store.old store.new) }
    ensures err { IfErr result (TableRefusal (seen_by S.Store store.old store.new) params.now.ewald_table_file) }
{
    match &params.ewald_table_file {
        Some(name) => match load_table(alloc, store, name) {
            Ok(table) => Ok(Some(table)),
            Err(status) => Err(status),
        },
        None => Ok(None),
    }
}
