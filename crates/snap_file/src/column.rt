// The four columns of a snapshot, one entry for each body.
ghost use Rattle.std.specs.Prelude.{◌≡◌, ◌≤◌, ◌*◌, ◌++◌, OnOk};
ghost use Rattle.snap_file.specs.Columns.{entry_of, name_of, width_of};

use fixed_point::{Memory, push_three_signed, push_three_words, push_word32, push_word64};
use nbody_model::Body;

/// A column: what its block is called, and what an entry of it is.
#[derive(Clone, Copy)]
pub(crate) enum Column {
    Positions,
    Momenta,
    Ids,
    Masses,
}

impl Column {
    /// The name of the block.
    pub(crate) fn name(self) -> [u8; 4]
        ensures { result ≡ name_of self }
    {
        match self {
            Column::Positions => *b"POS ",
            Column::Momenta => *b"MOM ",
            Column::Ids => *b"ID  ",
            Column::Masses => *b"MASS",
        }
    }

    /// The bytes of the entries of this many bodies.
    pub(crate) fn length(self, count: u32) -> u32
        requires { count ≤ 5242880 }
        ensures value { result ≡ width_of self * count }
        ensures small { result ≤ 125829120 }
    {
        match self {
            Column::Positions => 12 * count,
            Column::Momenta => 24 * count,
            Column::Ids => 8 * count,
            Column::Masses => 4 * count,
        }
    }
}

// Appends the entry of a body.
pub(crate) fn push_entry(out: &mut Vec<u8>, column: Column, body: &Body) -> Result<(), Memory>
    ensures { OnOk result (out.new.items ≡ out.old.items ++ entry_of column body.now) }
{
    match column {
        Column::Positions => push_three_words(out, body.motion.pos()),
        Column::Momenta => push_three_signed(out, body.motion.mom()),
        Column::Ids => push_word64(out, body.id),
        Column::Masses => push_word32(out, body.mass),
    }
}
