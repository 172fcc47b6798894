// The parameter file of a run that begins with made bodies.
ghost use Rattle.std.specs.Prelude.{◌≡◌, ◌++◌, codes, OnOk, IfOk};
ghost use Rattle.made_bodies.specs.Settings.{named_line, settings_text};

use fixed_point::Memory;
use std::alloc::Global;
use store_io::Text;

// The lines without a name.
const NUMBERS: &[u8] = b"TimeMax 64
LowBin 1
TopBin 5
ErrTolTheta 128
ErrTolIntAccuracy 16384
GravityConstantInternal 4294967296
VelocityShift 0
";

// The line of a row whose value is the name with an ending.
fn push_name(out: &mut Vec<u8>, row: &[u8], name: &Text, ending: &[u8]) -> Result<(), Memory>
    ensures { OnOk result (out.new.items ≡ out.old.items ++ named_line row.now name.now ending.now) }
{
    out.extend_from_slice(row)?;
    out.extend_from_slice(name.bytes())?;
    out.extend_from_slice(ending)?;
    Ok(())
}

/// The text of a parameter file for the files of this name: 64 ticks in base steps of 32, with finer ones down to 2 ticks,
/// at an opening angle of a half.
pub fn settings_text(alloc: Global, name: &Text) -> Result<Vec<u8>, Memory>
    ensures { IfOk result (λ text. text.items ≡ settings_text name.now) }
{
    let mut out = Vec::new(alloc);
    push_name(&mut out, b"InitCondFile ", name, b".ics\n")?;
    push_name(&mut out, b"SnapshotFileBase ", name, b"_out\n")?;
    push_name(&mut out, b"RestartFileBase ", name, b"_restart\n")?;
    push_name(&mut out, b"KickFile ", name, b".kicks\n")?;
    push_name(&mut out, b"RankTraceFile ", name, b".trace\n")?;
    out.extend_from_slice(NUMBERS)?;
    Ok(out)
}
