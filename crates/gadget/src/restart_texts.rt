// What is printed of a restart file that was refused.
ghost use Rattle.std.specs.Prelude.{◌≡◌, ◌++◌, OnOk};
ghost use Rattle.gadget.specs.Texts.{restart_fault_text};

use crate::snap_texts::{push_counted, push_set_err};
use fixed_point::Memory;
use restart_files::RestartErr;
use text_words::push_spaced;

/// Puts what is wrong with a restart file behind a line.
pub fn push_restart_err(line: &mut Vec<u8>, err: &RestartErr) -> Result<(), Memory>
    ensures { OnOk result (line.new.items ≡ line.old.items ++ restart_fault_text err.now) }
{
    match err {
        RestartErr::Tag => Ok(line.extend_from_slice(b"tag")?),
        RestartErr::Length { want, got } => {
            push_counted(line, b"length", *want)?;
            push_spaced(line, *got)
        }
        RestartErr::Version { v } => push_counted(line, b"version", u64::from(*v)),
        RestartErr::Field { at } => push_counted(line, b"field at", *at),
        RestartErr::EndMark => Ok(line.extend_from_slice(b"end mark")?),
        RestartErr::Bodies(err) => push_set_err(line, err),
        RestartErr::Memory => Ok(()),
    }
}
