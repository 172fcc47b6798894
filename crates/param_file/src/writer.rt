// Writing a parameter file.
ghost use Rattle.std.specs.Prelude.{◌≡◌, ◌++◌, ◌∷◌, [], IfOk, IfErr, OnOk, option_map, decimal};
ghost use Rattle.text_words.specs.Comments.{lines_in};
ghost use Rattle.param_file.specs.Reading.{Spell};
ghost use Rattle.param_file.specs.Rows.{name_of};
ghost use Rattle.param_file.specs.Setting.{meant_by};
ghost use Rattle.param_file.specs.Settings.{text, value_in};
ghost use Rattle.param_file.specs.declared.errors.ParamKind.TheVariants.{Memory as OutOfMemory};
ghost use Rattle.param_file.specs.Writing.{word_of, params_text, row_text, rows_text};

use crate::errors::ParamErr;
use crate::names::{ParamName, ROWS};
use crate::params::Params;
use crate::reader::read_params;
use fixed_point::Memory;
use std::alloc::Global;
use store_io::Text;
use text_words::push_unsigned;

// The value of a row.
#[derive(Clone, Copy)]
enum Setting<'a> {
    Name(&'a [u8]),
    Number(u64),
}

fn name_if_any(name: &Option<Text>) -> Option<Setting<'_>>
    ensures { option_map meant_by result ≡ option_map text name.now }
{
    match name {
        Some(text) => Some(Setting::Name(text.bytes())),
        None => None,
    }
}

// The value of a row, if it has one.
fn setting_of(params: &Params, row: ParamName) -> Option<Setting<'_>>
    ensures { option_map meant_by result ≡ value_in params.now row }
{
    match row {
        ParamName::InitCondFile => Some(Setting::Name(params.init_cond_file.bytes())),
        ParamName::SnapshotFileBase => Some(Setting::Name(params.snapshot_file_base.bytes())),
        ParamName::OutputListFilename => name_if_any(&params.output_list_filename),
        ParamName::EwaldTableFile => name_if_any(&params.ewald_table_file),
        ParamName::RestartFileBase => Some(Setting::Name(params.restart_file_base.bytes())),
        ParamName::KickFile => Some(Setting::Name(params.kick_file.bytes())),
        ParamName::RankTraceFile => Some(Setting::Name(params.rank_trace_file.bytes())),
        ParamName::TimeMax => Some(Setting::Number(params.time_max)),
        ParamName::LowBin => Some(Setting::Number(params.low_bin)),
        ParamName::TopBin => Some(Setting::Number(params.top_bin)),
        ParamName::ErrTolTheta => Some(Setting::Number(params.err_tol_theta)),
        ParamName::ErrTolIntAccuracy => Some(Setting::Number(params.err_tol_int_accuracy)),
        ParamName::GravityConstantInternal => Some(Setting::Number(
            params.gravity_constant_internal,
        )),
        ParamName::VelocityShift => Some(Setting::Number(params.velocity_shift)),
        ParamName::SofteningType1 => Some(Setting::Number(params.softening_type1)),
        ParamName::SofteningType2 => Some(Setting::Number(params.softening_type2)),
        ParamName::SofteningType3 => Some(Setting::Number(params.softening_type3)),
        ParamName::SofteningType4 => Some(Setting::Number(params.softening_type4)),
        ParamName::SofteningType5 => Some(Setting::Number(params.softening_type5)),
        ParamName::RestartEvery => Some(Setting::Number(params.restart_every)),
        ParamName::RankTrace => Some(Setting::Number(params.rank_trace)),
        ParamName::DeliverySeed => Some(Setting::Number(params.delivery_seed)),
        ParamName::ExpansionTableFile => name_if_any(&params.expansion_table_file),
        ParamName::BinFile => name_if_any(&params.bin_file),
    }
}

// A value as a word.
fn push_value(out: &mut Vec<u8>, setting: Setting<'_>) -> Result<(), Memory>
    ensures { OnOk result (out.new.items ≡ out.old.items ++ word_of (meant_by setting.entry)) }
{
    match setting {
        Setting::Name(name) => Ok(out.extend_from_slice(name)?),
        Setting::Number(n) => push_unsigned(out, u128::from(n)),
    }
}

// The line of a row, or nothing where it has no value.
fn push_row(out: &mut Vec<u8>, params: &Params, row: ParamName) -> Result<(), Memory>
    ensures { OnOk result (out.new.items ≡ out.old.items ++ row_text (name_of row) (value_in params.now row)) }
{
    let Some(setting) = setting_of(params, row) else {
        return Ok(());
    };
    out.extend_from_slice(row.as_bytes())?;
    out.push(b' ')?;
    push_value(out, setting)?;
    out.push(b'\n')?;
    Ok(())
}

// The lines of these rows.
fn write_rows(alloc: Global, params: &Params, rows: &[ParamName]) -> Result<Vec<u8>, Memory>
    ensures { IfOk result (λ out. out.items ≡ rows_text params.now rows.now) }
{
    let mut out = Vec::new(alloc);
    for row in rows {
        push_row(&mut out, params, *row)?;
    }
    Ok(out)
}

/// The bytes that are read as these settings: a line `name value` per row in the order of the table, and none for
/// an absent name.
pub fn write_params(alloc: Global, params: &Params) -> Result<Vec<u8>, Memory>
    ensures text { IfOk result (λ out. out.items ≡ params_text params.now) }
    ensures spells { IfOk result (λ out. Spell (lines_in out.items) params.now) }
{
    params.are_accepted();
    write_rows(alloc, params, &ROWS)
}

/// What is written is read as the same settings, or memory is wanting.
pub fn written_and_read(alloc: Global, params: &Params) -> Result<Params, ParamErr>
    ensures same { IfOk result (λ again. again ≡ params.now) }
    ensures err { IfErr result (λ e. e.kind ≡ OutOfMemory) }
{
    let bytes = write_params(alloc, params)?;
    read_params(alloc, &bytes)
}
