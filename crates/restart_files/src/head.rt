// The head of a restart file.
ghost use Rattle.std.specs.Prelude.{◌≡◌, ◌≤◌, ◌<◌, ◌+◌, ◌*◌, ◌^◌, ◌⊎◌, length, min, IsTrue, IfOk, IfErr, OnOk, Some, None};
ghost use Rattle.restart_files.specs.RestartFile.{HasHead, head_fault, is_between_steps, is_count, is_inside_step, is_tick, is_version, tick_fault, version_in, width_of};

use crate::RestartErr;
use fixed_point::{word32, word64};

/// The first eight bytes of a file.
pub(crate) const TAG: [u8; 8] = *b"I4RESTRT";

/// The last eight bytes of a file.
pub(crate) const END_MARK: [u8; 8] = *b"I4RESEND";

const LEAST_LENGTH: usize = 176;

const MOST_BODIES: u32 = 1_048_576;

const HIGHEST_BIN: u64 = 20;

/// Which version a file has, and how many bodies.
#[derive(Clone, Copy)]
pub(crate) struct Head {
    pub(crate) version: u32,
    pub(crate) count: u32,
}

// The bytes of a body.
pub(crate) fn width(version: u32) -> usize
    ensures value { result ≡ width_of version }
    ensures small { (52 ≤ result) × (result ≤ 56) }
{
    if version == 1 { 52 } else { 56 }
}

// Whether there is such a version.
fn is_version(version: u32) -> bool
    ensures value { result ≡ is_version version }
    ensures either { IsTrue result → (version ≡ 1) ⊎ (version ≡ 2) }
{
    version == 1 || version == 2
}

// Whether a file of a version may have so many bodies.
fn is_count(version: u32, count: u32) -> bool
    ensures value { result ≡ is_count version count }
    ensures few { IsTrue result → count ≤ 1048576 }
    ensures some { IsTrue result → version ≡ 2 → 1 ≤ count }
{
    count <= MOST_BODIES && !(version == 2 && count == 0)
}

// What the head says, where the tag, the version, the number of bodies, the length and the end mark are sound.
pub(crate) fn head_of(bytes: &[u8]) -> Result<Head, RestartErr>
    ensures ok { OnOk result (head_fault bytes.now ≡ None) }
    ensures head { IfOk result (HasHead bytes.now) }
    ensures err { IfErr result (λ e. head_fault bytes.now ≡ Some e) }
{
    let got = bytes.len() as u64;
    if !bytes.starts_with(&TAG) {
        return Err(RestartErr::Tag);
    }
    if bytes.len() < LEAST_LENGTH {
        return Err(RestartErr::Length { want: 176, got });
    }
    let version = word32(bytes, 8);
    if !is_version(version) {
        return Err(RestartErr::Version { v: version });
    }
    let count = word32(bytes, 12);
    if !is_count(version, count) {
        return Err(RestartErr::Field { at: 12 });
    }
    let want = LEAST_LENGTH + width(version) * count as usize;
    if bytes.len() != want {
        let want = want as u64;
        return Err(RestartErr::Length { want, got });
    }
    if !bytes.ends_with(&END_MARK) {
        return Err(RestartErr::EndMark);
    }
    Ok(Head { version, count })
}

// Whether a tick is the end of these base steps, before the time asked for.
fn is_between_steps(steps: u64, tick: u64, time_max: u64, top: u32) -> bool
    requires { top ≤ 20 }
    ensures { result ≡ is_between_steps steps tick time_max top }
{
    u128::from(tick) == u128::from(steps) << top && tick < time_max
}

// Whether a tick is a resting point inside the base step after these.
fn is_inside_step(steps: u64, tick: u64, time_max: u64, low: u32, top: u32) -> bool
    requires { top ≤ 20 }
    ensures { result ≡ is_inside_step steps tick time_max low top }
{
    let zeros = tick.trailing_zeros();
    let began = u128::from(steps) << top;
    steps == tick >> top && began < u128::from(time_max) && low <= zeros && zeros < top
}

// The number of a bin, where one above 20 counts as 20.
fn bin_at_most_20(bin: u64) -> u32
    ensures value { result ≡ min bin 20 }
    ensures small { result ≤ 20 }
{
    bin.min(HIGHEST_BIN) as u32
}

// Whether the tick goes with the base steps and the settings.
pub(crate) fn check_tick(bytes: &[u8], head: Head) -> Result<(), RestartErr>
    requires { HasHead bytes.now head }
    ensures ok { OnOk result (tick_fault bytes.now ≡ None) }
    ensures err { IfErr result (λ e. tick_fault bytes.now ≡ Some e) }
{
    if is_tick(bytes, head) {
        return Ok(());
    }
    Err(RestartErr::Field { at: 24 })
}

fn is_tick(bytes: &[u8], head: Head) -> bool
    requires { HasHead bytes.now head }
    ensures { result ≡ is_tick bytes.now }
{
    let steps = word64(bytes, 16);
    let tick = word64(bytes, 24);
    let time_max = word64(bytes, 72);
    let top = bin_at_most_20(word64(bytes, 88));
    if head.version == 1 {
        return is_between_steps(steps, tick, time_max, top);
    }
    is_inside_step(
        steps,
        tick,
        time_max,
        bin_at_most_20(word64(bytes, 80)),
        top,
    )
}
