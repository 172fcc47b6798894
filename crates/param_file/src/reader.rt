// Reading a parameter file.
ghost use Rattle.std.specs.Prelude.{◌≡◌, ◌⊎◌, Some, IfOk, IfErr, IsSome};
ghost use Rattle.text_words.specs.Comments.{lines_in};
ghost use Rattle.param_file.specs.Checks.{Gives, IsAccepted};
ghost use Rattle.param_file.specs.Known.{known_by};
ghost use Rattle.param_file.specs.Reading.{word_of_row, IsFirstFault, Spell};
ghost use Rattle.param_file.specs.Settings.{IsParams};
ghost use Rattle.param_file.specs.declared.errors.ParamKind.TheVariants.{Memory as OutOfMemory};

use crate::checks::{check_bins, check_clash, check_missing, number_of};
use crate::entries::{Entry, entry_of, read_lines};
use crate::errors::ParamErr;
use crate::names::ParamName;
use crate::params::Params;
use fixed_point::Memory;
use std::alloc::Global;
use store_io::Text;

// The name of a row that may be absent.
fn name_if_any(alloc: Global, known: &[Entry<'_>], row: ParamName) -> Result<Option<Text>, Memory>
    ensures { IfOk result (λ name. word_of_row (known_by known.now) row ≡ name) }
{
    match entry_of(known, row) {
        Some(entry) => Ok(Some(Text::from_bytes(alloc, entry.value)?)),
        None => Ok(None),
    }
}

// The name of a row that has a value.
fn name_of(alloc: Global, known: &[Entry<'_>], row: ParamName) -> Result<Text, Memory>
    requires { IsSome (word_of_row (known_by known.now) row) }
    ensures { IfOk result (λ name. word_of_row (known_by known.now) row ≡ Some name) }
{
    match entry_of(known, row) {
        Some(entry) => Text::from_bytes(alloc, entry.value),
        None => unreachable!(),
    }
}

// The settings that accepted lines give.
fn make_params(alloc: Global, known: &[Entry<'_>]) -> Result<Params, Memory>
    requires { IsAccepted (known_by known.now) }
    ensures gives { IfOk result (λ params. Gives (known_by known.now) params) }
    ensures accepted { IfOk result (λ params. IsParams params) }
{
    Ok(Params {
        init_cond_file: name_of(alloc, known, ParamName::InitCondFile)?,
        snapshot_file_base: name_of(alloc, known, ParamName::SnapshotFileBase)?,
        output_list_filename: name_if_any(alloc, known, ParamName::OutputListFilename)?,
        ewald_table_file: name_if_any(alloc, known, ParamName::EwaldTableFile)?,
        restart_file_base: name_of(alloc, known, ParamName::RestartFileBase)?,
        kick_file: name_of(alloc, known, ParamName::KickFile)?,
        rank_trace_file: name_of(alloc, known, ParamName::RankTraceFile)?,
        time_max: number_of(known, ParamName::TimeMax),
        low_bin: number_of(known, ParamName::LowBin),
        top_bin: number_of(known, ParamName::TopBin),
        err_tol_theta: number_of(known, ParamName::ErrTolTheta),
        err_tol_int_accuracy: number_of(known, ParamName::ErrTolIntAccuracy),
        gravity_constant_internal: number_of(known, ParamName::GravityConstantInternal),
        velocity_shift: number_of(known, ParamName::VelocityShift),
        softening_type1: number_of(known, ParamName::SofteningType1),
        softening_type2: number_of(known, ParamName::SofteningType2),
        softening_type3: number_of(known, ParamName::SofteningType3),
        softening_type4: number_of(known, ParamName::SofteningType4),
        softening_type5: number_of(known, ParamName::SofteningType5),
        restart_every: number_of(known, ParamName::RestartEvery),
        rank_trace: number_of(known, ParamName::RankTrace),
        delivery_seed: number_of(known, ParamName::DeliverySeed),
        expansion_table_file: name_if_any(alloc, known, ParamName::ExpansionTableFile)?,
        bin_file: name_if_any(alloc, known, ParamName::BinFile)?,
    })
}

/// The settings that the bytes spell, or their first fault.
///
/// Each line is a name and a value in words; lines without words and lines that begin with `%` are passed over,
/// and so are further words. Lines are checked in order, each for Unknown, Repeated, NoValue, NotNumber and
/// OutOfRange. Then come Missing (line 0), OutOfRange where `LowBin` is above `TopBin`, and Clash where two of
/// the names are equal or one is the other followed by `_` and more.
pub fn read_params(alloc: Global, bytes: &[u8]) -> Result<Params, ParamErr>
    ensures ok { IfOk result (λ params. Spell (lines_in bytes.now) params) }
    ensures err { IfErr result (λ e. (e.kind ≡ OutOfMemory) ⊎ IsFirstFault (lines_in bytes.now) e.line e.kind) }
{
    let known = read_lines(alloc, bytes)?;
    check_missing(&known)?;
    check_bins(&known)?;
    check_clash(&known)?;
    Ok(make_params(alloc, &known)?)
}
