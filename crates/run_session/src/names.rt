// The names of the files of a run.
ghost use Rattle.std.specs.Prelude.{◌≡◌, ◌++◌, IfOk, option_map};
ghost use Rattle.nbody_model.specs.Evolve.{is_empty};
ghost use Rattle.nbody_model.specs.Texts.{three_digits, numbered, name_end};
ghost use Rattle.run_session.specs.Own.{own_files};

use crate::own::OwnFiles;
use fixed_point::Memory;
use param_file::Params;
use restart_files::State;
use std::alloc::Global;
use step_engine::Depths;
use store_io::Text;
use text_words::push_unsigned;

// A number with at least three digits.
fn three_digits(alloc: Global, n: u64) -> Result<Vec<u8>, Memory>
    ensures { IfOk result (λ digits. digits.items ≡ three_digits n) }
{
    let mut digits = Vec::new(alloc);
    push_unsigned(&mut digits, u128::from(n))?;
    let mut padded = vec![in alloc; b'0'; 3usize.saturating_sub(digits.len())]?;
    padded.extend_from_slice(&digits)?;
    Ok(padded)
}

/// The base, `_`, and the number with at least three digits.
pub fn numbered(alloc: Global, base: &Text, n: u64) -> Result<Text, Memory>
    ensures { IfOk result (λ name. name ≡ numbered base.now n) }
{
    let mut tail = Vec::from_slice(alloc, b"_")?;
    tail.extend_from_slice(&three_digits(alloc, n)?)?;
    base.with(alloc, &tail)
}

// Whether there are no depths.
fn is_empty(depths: &Depths) -> bool
    ensures { result ≡ is_empty depths.now }
{
    depths.len() == 0
}

// What stands behind the names of the kick and the trace file of a run from a state on.
fn name_end(alloc: Global, resumed: bool, state: &State) -> Result<Vec<u8>, Memory>
    ensures { IfOk result (λ end. end.items ≡ name_end resumed state.now) }
{
    let mut end = Vec::new(alloc);
    if !resumed {
        return Ok(end);
    }
    end.extend_from_slice(b"_from_")?;
    push_unsigned(&mut end, u128::from(state.steps))?;
    if is_empty(&state.depth) {
        return Ok(end);
    }
    end.extend_from_slice(b"_at_")?;
    push_unsigned(&mut end, u128::from(state.tick))?;
    Ok(end)
}

// A copy of a name, if there is one.
fn copy_of(alloc: Global, name: &Option<Text>) -> Result<Option<Text>, Memory>
    ensures { IfOk result (λ copy. copy ≡ name.now) }
{
    match name {
        None => Ok(None),
        Some(name) => Ok(Some(Text::from_bytes(alloc, name.bytes())?)),
    }
}

/// The names of the files that a run from a state on keeps open.
pub(crate) fn own_names(
    alloc: Global,
    params: &Params,
    resumed: bool,
    state: &State,
) -> Result<OwnFiles, Memory>
    ensures { IfOk result (λ own. own ≡ own_files params.now resumed state.now) }
{
    let end = name_end(alloc, resumed, state)?;
    let kicks = params.kick_file.with(alloc, &end)?;
    let trace = if params.rank_trace == 0 {
        None
    } else {
        Some(params.rank_trace_file.with(alloc, &end)?)
    };
    let bins = if resumed {
        None
    } else {
        copy_of(alloc, &params.bin_file)?
    };
    Ok(OwnFiles { kicks, trace, bins })
}
