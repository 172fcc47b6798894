// What is read before anything is written, but for the bodies.
ghost use Rattle.std.specs.Prelude.{◌≡◌, ◌⊎◌, false, IsTrue, IfOk, IfErr, IfSome, OnOk};
ghost use Rattle.nbody_model.specs.Setups.{last_tick};
ghost use Rattle.nbody_model.specs.Tables.{IsTable, Reaches};
ghost use Rattle.param_file.specs.Settings.{setup_of};
ghost use Rattle.store_io.specs.Causes.{HasCause, read_failed};
ghost use Rattle.store_io.specs.Told.{IsQuiet, KeepsFiles, Tells};
ghost use Rattle.gadget.specs.Reads.{WasRead, NotRead, seen_by, status_of};
ghost use Rattle.gadget.specs.Inputs.{SpellsParams, SpellsTimes, NamesParams, ParamRefusal, ParamAnswer, GivesTimes, NamesTimes, ListRefusal, NamedListRefusal, ListAnswer, Accepts, FirstRefusal, RefusesList, RefusesTable, RefusesFactors, inputs_of};

use crate::factors::load_factors;
use crate::status::Status;
use crate::tables::load_corrections;
use ewald_table::Table;
use expansion_table::Expansion;
use output_schedule::{OutputErr, read_outputs};
use param_file::{ParamErr, ParamKind, Params, read_params};
use std::alloc::Global;
use store_io::{ReadErr, Store, Text, read_whole};

/// The longest parameter file, in bytes.
const LONGEST_PARAMETERS: u64 = 65_536;

/// The longest output list, in bytes.
const LONGEST_LIST: u64 = 1_048_576;

// The answer for a file that wasn't read.
fn unread(alloc: Global, name: &Text, err: ReadErr) -> Status
    ensures { (result ≡ Status.Memory) ⊎ (result ≡ status_of err name.now) }
{
    let Ok(name) = Text::from_bytes(alloc, name.bytes()) else {
        return Status::Memory;
    };
    match err {
        ReadErr::Absent => Status::Absent { name },
        ReadErr::Failed => Status::ReadFault { name },
        ReadErr::TooLong { len } => Status::TooLong { name, len },
        ReadErr::Memory => Status::Memory,
    }
}

/// The bytes of a file, or the answer for it.
pub fn read_file<S: Store>(
    alloc: Global,
    store: &mut S,
    name: &Text,
    limit: u64,
) -> Result<Vec<u8>, Status>
    ensures keeps { KeepsFiles S.Store store.old store.new }
    ensures ok { IfOk result (λ v. Tells S.Store store.old → WasRead (S.file store.old) name.now limit v.items) }
    ensures quiet { OnOk result (IsQuiet S.Store store.old store.new) }
    ensures err { IfErr result (NotRead (seen_by S.Store store.old store.new) name.now limit) }
{
    match read_whole(alloc, store, name, limit) {
        Ok(bytes) => Ok(bytes),
        Err(err) => Err(unread(alloc, name, err)),
    }
}

// The settings that bytes spell.
fn params_of(alloc: Global, bytes: &[u8]) -> Result<Params, Status>
    ensures ok { IfOk result (SpellsParams bytes.now) }
    ensures err { IfErr result (ParamAnswer bytes.now) }
{
    match read_params(alloc, bytes) {
        Ok(params) => Ok(params),
        Err(err) => match err.kind {
            ParamKind::Memory => Err(Status::Memory),
            _ => Err(Status::Param(err)),
        },
    }
}

// Reads a parameter file.
fn load_params<S: Store>(alloc: Global, store: &mut S, name: &Text) -> Result<Params, Status>
    ensures keeps { KeepsFiles S.Store store.old store.new }
    ensures ok { IfOk result (λ p. Tells S.Store store.old → NamesParams (S.file store.old) name.now p) }
    ensures quiet { OnOk result (IsQuiet S.Store store.old store.new) }
    ensures err { IfErr result (ParamRefusal (seen_by S.Store store.old store.new) name.now) }
{
    let bytes = match read_file(alloc, store, name, LONGEST_PARAMETERS) {
        Ok(bytes) => bytes,
        Err(status) => return Err(status),
    };
    params_of(alloc, &bytes)
}

// The times that bytes spell.
fn times_of(alloc: Global, bytes: &[u8]) -> Result<Vec<u64>, Status>
    ensures ok { IfOk result (λ v. SpellsTimes bytes.now v.items) }
    ensures err { IfErr result (ListAnswer bytes.now) }
{
    match read_outputs(alloc, bytes) {
        Ok(times) => Ok(times),
        Err(OutputErr::Memory) => Err(Status::Memory),
        Err(err) => Err(Status::Outputs(err)),
    }
}

// Reads an output list.
fn load_list<S: Store>(alloc: Global, store: &mut S, name: &Text) -> Result<Vec<u64>, Status>
    ensures keeps { KeepsFiles S.Store store.old store.new }
    ensures ok { IfOk result (λ v. Tells S.Store store.old → NamesTimes (S.file store.old) name.now v.items) }
    ensures quiet { OnOk result (IsQuiet S.Store store.old store.new) }
    ensures err { IfErr result (NamedListRefusal (seen_by S.Store store.old store.new) name.now) }
{
    let bytes = match read_file(alloc, store, name, LONGEST_LIST) {
        Ok(bytes) => bytes,
        Err(status) => return Err(status),
    };
    times_of(alloc, &bytes)
}

// Reads the listed times, none where no list is named.
fn load_outputs<S: Store>(alloc: Global, store: &mut S, params: &Params) -> Result<Vec<u64>, Status>
    ensures keeps { KeepsFiles S.Store store.old store.new }
    ensures ok { IfOk result (λ v. Tells S.Store store.old → GivesTimes (S.file store.old) params.now.output_list_filename v.items) }
    ensures quiet { OnOk result (IsQuiet S.Store store.old store.new) }
    ensures err { IfErr result (ListRefusal (seen_by S.Store store.old store.new) params.now.output_list_filename) }
{
    match &params.output_list_filename {
        Some(name) => load_list(alloc, store, name),
        None => Ok(Vec::new(alloc)),
    }
}

/// What a run goes by beside its bodies: its settings, the listed times, and the tables of corrections and of factors.
#[derive(Drop)]
pub struct Inputs {
    pub params: Params,
    pub outputs: Vec<u64>,
    pub table: Option<Table>,
    pub factors: Option<Expansion>,
}

/// Reads a parameter file, then the list and the tables that it names.
pub fn load_inputs<S: Store>(alloc: Global, store: &mut S, name: &Text) -> Result<Inputs, Status>
    ensures keeps { KeepsFiles S.Store store.old store.new }
    ensures ok { IfOk result (λ b. Tells S.Store store.old → Accepts (S.file store.old) name.now (inputs_of b)) }
    ensures sound { IfOk result (λ b. IfSome b.table IsTable) }
    ensures reach { IfOk result (λ b. IfSome b.factors (λ e. Reaches e (last_tick (setup_of b.params)))) }
    ensures quiet { OnOk result (IsQuiet S.Store store.old store.new) }
    ensures err { IfErr result (FirstRefusal (seen_by S.Store store.old store.new) name.now) }
{
    let params = match load_params(alloc, store, name) {
        Ok(params) => params,
        Err(status) => return Err(status),
    };
    let outputs = match load_outputs(alloc, store, &params) {
        Ok(outputs) => outputs,
        Err(status) => return Err(status),
    };
    let table = match load_corrections(alloc, store, &params) {
        Ok(table) => table,
        Err(status) => return Err(status),
    };
    match load_factors(alloc, store, &params) {
        Ok(factors) => Ok(Inputs {
            params,
            outputs,
            table,
            factors,
        }),
        Err(status) => Err(status),
    }
}
