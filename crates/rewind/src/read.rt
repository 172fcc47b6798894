// Reads bin files.
ghost use Rattle.std.specs.Prelude.{◌≡◌, ◌≤◌, [], length, drop, IfOk, IfErr};
ghost use Rattle.std.specs.List.Sorted.{IsStrictlyIncreasing};
ghost use Rattle.std.specs.Str.{bytes_eq};
ghost use Rattle.model_laws.specs.Nests.{ids_of};
ghost use Rattle.rewind_laws.specs.Back.{base_steps};
ghost use Rattle.rewind_laws.specs.Bins.{bins_mark, step_at, steps_at};
ghost use Rattle.rewind.specs.Rewinding.{AreOfRun};
ghost use Rattle.rewind.specs.Reading.{IsBad, IsFirstFault, SpellBins, StepIsRead, StepsAreRead};

use crate::records::{Source, record_at};
use crate::{Bins, RewindErr};
use fixed_point::Memory;
use nbody_model::Setup;
use particle_set::BodySet;
use std::alloc::Global;

const TAG: [u8; 8] = *b"I4BINS01";

const END_MARK: [u8; 8] = *b"I4BINEND";

const HEAD_LENGTH: usize = 8;

/// How many base steps a run makes.
pub(crate) fn base_steps(setup: &Setup) -> u64
    ensures { result ≡ base_steps setup.now }
{
    (setup.time_max + (1u64 << setup.top_bin) - 1) >> setup.top_bin
}

/// The ids of all bodies.
pub(crate) fn all_ids(alloc: Global, set: &BodySet) -> Result<Vec<u64>, Memory>
    ensures value { IfOk result (λ ids. ids.items ≡ ids_of set.now) }
    ensures ascending { IfOk result (λ ids. IsStrictlyIncreasing ids.items) }
{
    let ids = set.bodies().iter().map(|body| body.id).collect(alloc)?;
    Ok(ids)
}

// Reads the records of a step of a part in a bin from a place on, and tells where they end.
fn read_step(
    source: &Source,
    bins: &mut Bins,
    bin: u8,
    part: &[u64],
    at: usize,
) -> Result<usize, RewindErr>
    requires low { 1 ≤ source.now.low_bin }
    requires bin { source.now.low_bin ≤ bin }
    requires within { at ≤ length source.now.bytes.now }
    requires ascending { IsStrictlyIncreasing part.now }
    ensures ok { IfOk result (λ next. StepIsRead source.now.low_bin bin part.now source.now.bytes.now at bins.old next bins.new) }
    ensures err { IfErr result (IsBad (step_at source.now.low_bin bin part.now source.now.bytes.now at)) }
{
    let fast = match record_at(source, bin, part, at) {
        Ok(fast) => fast,
        Err(fault) => return Err(fault),
    };
    let next = at + 4 + 8 * fast.len();
    if fast.is_empty() {
        bins.push(&fast)?;
        return Ok(next);
    }
    let middle = match read_step(source, bins, bin - 1, &fast, next) {
        Ok(middle) => middle,
        Err(fault) => return Err(fault),
    };
    let end = match read_step(source, bins, bin - 1, &fast, middle) {
        Ok(end) => end,
        Err(fault) => return Err(fault),
    };
    bins.push(&fast)?;
    Ok(end)
}

// Reads the records of all base steps, and tells where they end.
fn read_steps(
    source: &Source,
    setup: &Setup,
    all: &[u64],
    bins: &mut Bins,
) -> Result<usize, RewindErr>
    requires low { source.now.low_bin ≡ setup.now.low_bin }
    requires head { 8 ≤ length source.now.bytes.now }
    requires ascending { IsStrictlyIncreasing all.now }
    requires none { bins.old ≡ [] }
    ensures ok { IfOk result (λ end. StepsAreRead setup.now all.now source.now.bytes.now end bins.new) }
    ensures err { IfErr result (IsBad (steps_at setup.now (base_steps setup.now) all.now source.now.bytes.now 8)) }
{
    let top = setup.top_bin;
    let mut at = HEAD_LENGTH;
    for _step in 0..base_steps(setup) {
        at = match read_step(source, bins, top, all, at) {
            Ok(next) => next,
            Err(fault) => return Err(fault),
        };
    }
    Ok(at)
}

// Whether the end mark and nothing else stands from a place on.
fn is_end(bytes: &[u8], at: usize) -> bool
    requires { at ≤ length bytes.now }
    ensures { result ≡ bytes_eq bins_mark (drop at bytes.now) }
{
    END_MARK.as_slice() == &bytes[at..]
}

/// The fast parts that the bytes of a bin file spell, for the bodies of a run and its setup, or the first fault of these
/// bytes.
///
/// The file is the tag `I4BINS01`, a record for each step in the order in which the steps begin, and the end mark
/// `I4BINEND`. A record is the number of fast bodies of 32 bits, and their ids of 64 bits each, ascending, all with the
/// lowest byte first. Behind a record that isn't empty stand those of its two finer steps, whose bodies are its own.
pub fn read_bins(
    alloc: Global,
    bytes: &[u8],
    set: &BodySet,
    setup: &Setup,
) -> Result<Bins, RewindErr>
    ensures ok { IfOk result (SpellBins bytes.now setup.now set.now) }
    ensures run { IfOk result (AreOfRun setup.now set.now) }
    ensures err { IfErr result (IsFirstFault bytes.now setup.now set.now) }
{
    if !bytes.starts_with(&TAG) {
        return Err(RewindErr::Tag);
    }
    let all = all_ids(alloc, set)?;
    let source = Source {
        alloc,
        bytes,
        low_bin: setup.low_bin,
    };
    let mut bins = Bins::new(alloc);
    let end = match read_steps(&source, setup, &all, &mut bins) {
        Ok(end) => end,
        Err(fault) => return Err(fault),
    };
    if !is_end(bytes, end) {
        return Err(RewindErr::EndMark);
    }
    Ok(bins)
}
