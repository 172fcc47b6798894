// Lists of bytes that name files.
ghost use Rattle.std.specs.Prelude.{◌≡◌, ◌++◌, IfOk};
ghost use Rattle.std.specs.List.{list_all};
ghost use Rattle.store_io.specs.Names.{is_name, is_visible};

use fixed_point::Memory;
use std::alloc::Global;
use std::marker::Model;

/// A list of bytes, as the name of a file.
#[derive(Debug, Drop)]
pub struct Text {
    bytes: Vec<u8>,
}

impl Model for Text {
    ghost use Rattle.std.specs.Prelude.{List, ℕ};

    ghost Value = { List ℕ };

    ghost view = { λ t. t.bytes.items };
}

impl Text {
    /// A copy of the bytes.
    pub fn from_bytes(alloc: Global, bytes: &[u8]) -> Result<Text, Memory>
        ensures { IfOk result (λ text. text ≡ bytes.now) }
    {
        Ok(Text {
            bytes: Vec::from_slice(alloc, bytes)?,
        })
    }

    /// Its bytes.
    pub fn bytes(&self) -> &[u8]
        ensures { result.now ≡ self.now }
    {
        &self.bytes
    }

    /// These bytes, and the tail behind them.
    pub fn with(&self, alloc: Global, tail: &[u8]) -> Result<Text, Memory>
        ensures { IfOk result (λ text. text ≡ self.now ++ tail.now) }
    {
        let mut bytes = Vec::from_slice(alloc, &self.bytes)?;
        bytes.extend_from_slice(tail)?;
        Ok(Text { bytes })
    }

    /// Whether it has 1 to 200 bytes, each of 0x21 to 0x7E.
    pub fn is_name(&self) -> bool
        ensures { result ≡ is_name self.now }
    {
        let len = self.bytes.len();
        1 <= len && len <= 200 && all_visible(&self.bytes)
    }
}

fn all_visible(bytes: &[u8]) -> bool
    ensures { result ≡ list_all is_visible bytes.now }
{
    bytes.iter().all(|b| 33 <= *b && *b <= 126)
}
