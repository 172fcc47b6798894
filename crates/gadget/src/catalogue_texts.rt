// What is printed of a catalogue that was refused.
ghost use Rattle.std.specs.Prelude.{◌≡◌, ◌++◌, OnOk};
ghost use Rattle.gadget.specs.Texts.{group_fault_text, status_words};

use crate::snap_texts::push_counted;
use crate::status::Status;
use crate::texts::push_name;
use fixed_point::Memory;
use group_file::GroupErr;
use store_io::Text;

fn push_group_err(line: &mut Vec<u8>, err: GroupErr) -> Result<(), Memory>
    ensures { OnOk result (line.new.items ≡ line.old.items ++ group_fault_text err) }
{
    match err {
        GroupErr::Tag => Ok(line.extend_from_slice(b"tag")?),
        GroupErr::Truncated { at } => push_counted(line, b"truncated at", at),
        GroupErr::Field { at } => push_counted(line, b"field at", at),
        GroupErr::Rest { at } => push_counted(line, b"rest at", at),
        GroupErr::Repeated { id } => push_counted(line, b"repeated id", id),
        GroupErr::Memory => Ok(()),
    }
}

/// Puts the words for a catalogue that was refused behind a line.
pub fn push_catalogue_fault(line: &mut Vec<u8>, name: &Text, kind: GroupErr) -> Result<(), Memory>
    ensures { OnOk result (line.new.items ≡ line.old.items ++ status_words (Status.Catalogue name.now kind)) }
{
    push_name(line, b"catalogue ", name.bytes())?;
    line.push(b' ')?;
    push_group_err(line, kind)
}
