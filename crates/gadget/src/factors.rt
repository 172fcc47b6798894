// The table of factors that a parameter file may name.
ghost use Rattle.std.specs.Prelude.{◌≡◌, ◌≤◌, ◌+◌, ◌^◌, IsTrue, IfOk, IfErr, IfSome, OnOk};
ghost use Rattle.nbody_model.specs.Setups.{last_tick};
ghost use Rattle.nbody_model.specs.Tables.{Reaches};
ghost use Rattle.param_file.specs.Settings.{setup_of};
ghost use Rattle.store_io.specs.Told.{IsQuiet, KeepsFiles, Tells};
ghost use Rattle.gadget.specs.Reads.{seen_by};
ghost use Rattle.gadget.specs.Factors.{SpellsFactors, FactorsAnswer, FactorsRefusal, GivesFactors, NamedFactorsRefusal, NamesFactors};

use crate::inputs::read_file;
use crate::status::Status;
use expansion_table::{ExpErr, Expansion, read_expansion};
use param_file::Params;
use std::alloc::Global;
use store_io::{Store, Text};

/// The longest table, in bytes.
const LONGEST_TABLE: u64 = 4_194_304;

// The tick at which a run ends.
#[tactic(auto, using(crate::proofs::LastTicks::last_small))]
fn last_tick(params: &Params) -> u64
    ensures { result ≡ last_tick (setup_of params.now) }
{
    let setup = params.setup();
    let step = 1u64 << setup.top_bin;
    (setup.time_max + step - 1) / step * step
}

// The table that bytes spell, for a run up to a last tick.
fn factors_of(alloc: Global, bytes: &[u8], last: u64) -> Result<Expansion, Status>
    ensures ok { IfOk result (SpellsFactors last bytes.now) }
    ensures reach { IfOk result (λ t. Reaches t last) }
    ensures err { IfErr result (FactorsAnswer bytes.now last) }
{
    match read_expansion(alloc, bytes, last) {
        Ok(table) => Ok(table),
        Err(ExpErr::Memory) => Err(Status::Memory),
        Err(err) => Err(Status::Expansion(err)),
    }
}

// Reads a table.
fn load_table<S: Store>(
    alloc: Global,
    store: &mut S,
    name: &Text,
    last: u64,
) -> Result<Expansion, Status>
    ensures keeps { KeepsFiles S.Store store.old store.new }
    ensures ok { IfOk result (λ t. Tells S.Store store.old → NamesFactors (S.file store.old) last name.now t) }
    ensures reach { IfOk result (λ t. Reaches t last) }
    ensures quiet { OnOk result (IsQuiet S.Store store.old store.new) }
    ensures err { IfErr result (NamedFactorsRefusal (seen_by S.Store store.old store.new) last name.now) }
{
    let bytes = match read_file(alloc, store, name, LONGEST_TABLE) {
        Ok(bytes) => bytes,
        Err(status) => return Err(status),
    };
    factors_of(alloc, &bytes, last)
}

/// Reads the table of factors, which reaches the last tick of the run; none where no table is named.
pub fn load_factors<S: Store>(
    alloc: Global,
    store: &mut S,
    params: &Params,
) -> Result<Option<Expansion>, Status>
    ensures keeps { KeepsFiles S.Store store.old store.new }
    ensures ok { IfOk result (λ t. Tells S.Store store.old → GivesFactors (S.file store.old) (last_tick (setup_of params.now)) params.now.expansion_table_file t) }
    ensures reach { IfOk result (λ t. IfSome t (λ e. Reaches e (last_tick (setup_of params.now)))) }
    ensures quiet { OnOk result (IsQuiet S.Store store.old store.new) }
    ensures err { IfErr result (FactorsRefusal (seen_by S.Store store.old store.new) (last_tick (setup_of params.now)) params.now.expansion_table_file) }
{
    match &params.expansion_table_file {
        Some(name) => match load_table(alloc, store, name, last_tick(params)) {
            Ok(table) => Ok(Some(table)),
            Err(status) => Err(status),
        },
        None => Ok(None),
    }
}
