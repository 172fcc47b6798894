// The settings in a restart file.
ghost use Rattle.std.specs.Prelude.{◌≡◌, ◌≤◌, ◌<◌, ◌+◌, ◌^◌, ◌∷◌, [], length, false, true, IfOk, IfErr, OnOk, Some, None};
ghost use Rattle.std.specs.Option.{option_or};
ghost use Rattle.fixed_point.specs.Bytes.{word64_at};
ghost use Rattle.nbody_model.specs.Setups.{AreSoftenings, IsSoftening};
ghost use Rattle.restart_files.specs.RestartFile.{is_from_to, rules_fault, setup_in, softening_fault};
ghost use Rattle.restart_files.specs.declared.errors.RestartErr.TheVariants.{Field};

use crate::RestartErr;
use fixed_point::word64;
use nbody_model::Setup;

// The number at a place, if it lies from one number to another.
fn from_to(bytes: &[u8], at: usize, low: u64, high: u64) -> Result<u64, RestartErr>
    requires { at + 8 ≤ length bytes.now }
    ensures ok { OnOk result (is_from_to bytes.now at low high ≡ true) }
    ensures value { IfOk result (λ number. number ≡ word64_at bytes.now at) }
    ensures range { IfOk result (λ number. (low ≤ number) × (number ≤ high)) }
    ensures out { IfErr result (λ e. is_from_to bytes.now at low high ≡ false) }
    ensures err { IfErr result (λ e. e ≡ Field at) }
{
    let number = word64(bytes, at);
    if low <= number && number <= high {
        return Ok(number);
    }
    Err(RestartErr::Field { at: at as u64 })
}

// A softening length.
fn softening(bytes: &[u8], at: usize) -> Result<u32, RestartErr>
    requires { at + 8 ≤ length bytes.now }
    ensures ok { OnOk result (is_from_to bytes.now at 256 (2 ^ 30) ≡ true) }
    ensures value { IfOk result (λ number. number ≡ word64_at bytes.now at) }
    ensures range { IfOk result IsSoftening }
    ensures out { IfErr result (λ e. is_from_to bytes.now at 256 (2 ^ 30) ≡ false) }
    ensures err { IfErr result (λ e. e ≡ Field at) }
{
    let number = from_to(bytes, at, 256, 1 << 30)?;
    Ok(number as u32)
}

// The softening lengths.
fn softenings(bytes: &[u8]) -> Result<[u32; 6], RestartErr>
    requires { 176 ≤ length bytes.now }
    ensures ok { OnOk result (softening_fault bytes.now ≡ None) }
    ensures value { IfOk result (λ soft. soft ≡ (setup_in bytes.now).soft) }
    ensures range { IfOk result AreSoftenings }
    ensures err { IfErr result (λ e. softening_fault bytes.now ≡ Some e) }
{
    let one = softening(bytes, 128)?;
    let two = softening(bytes, 136)?;
    let three = softening(bytes, 144)?;
    let four = softening(bytes, 152)?;
    let five = softening(bytes, 160)?;
    Ok([256, one, two, three, four, five])
}

// The settings, but for the softening lengths.
fn rules(bytes: &[u8]) -> Result<Setup, RestartErr>
    requires { 176 ≤ length bytes.now }
    ensures ok { OnOk result (rules_fault bytes.now ≡ None) }
    ensures value { IfOk result (λ setup. record setup { soft = (setup_in bytes.now).soft } ≡ setup_in bytes.now) }
    ensures err { IfErr result (λ e. rules_fault bytes.now ≡ Some e) }
{
    let time_max = from_to(bytes, 72, 0, 1 << 40)?;
    let low_bin = from_to(bytes, 80, 1, 20)?;
    let top_bin = from_to(bytes, 88, low_bin, 20)?;
    let theta = from_to(bytes, 96, 0, 256)?;
    let eta = from_to(bytes, 104, 1, 65536)?;
    let gravity = from_to(bytes, 112, 0, 1 << 32)?;
    let velocity_shift = from_to(bytes, 120, 0, 40)?;
    Ok(Setup {
        time_max,
        low_bin: low_bin as u8,
        top_bin: top_bin as u8,
        theta: theta as u32,
        eta: eta as u32,
        gravity,
        velocity_shift: velocity_shift as u8,
        soft: [256; 6],
    })
}

// The settings, or the first that is out of its range.
pub(crate) fn settings(bytes: &[u8]) -> Result<Setup, RestartErr>
    requires { 176 ≤ length bytes.now }
    ensures ok { OnOk result (option_or (rules_fault bytes.now) (softening_fault bytes.now) ≡ None) }
    ensures value { IfOk result (λ setup. setup ≡ setup_in bytes.now) }
    ensures err { IfErr result (λ e. option_or (rules_fault bytes.now) (softening_fault bytes.now) ≡ Some e) }
{
    let rules = rules(bytes)?;
    let soft = softenings(bytes)?;
    Ok(Setup { soft, ..rules })
}
