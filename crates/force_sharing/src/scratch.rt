// The memory that sharing works in.
ghost use Rattle.std.specs.Prelude.{◌≡◌, IfOk};

use fixed_point::Memory;
use std::alloc::Global;
use std::marker::Model;

/// Room for the order in which members are served.
#[derive(Drop)]
pub struct Scratch {
    pub(crate) turns: Vec<u128>,
}

impl Model for Scratch {
    ghost use Rattle.std.specs.Prelude.{ℕ, length};

    ghost Value = { ℕ };

    ghost view = { λ s. length s.turns.items };
}

impl Scratch {
    /// Room for `n` members.
    pub fn with_room(alloc: Global, n: usize) -> Result<Scratch, Memory>
        ensures { IfOk result (λ scratch. scratch ≡ n) }
    {
        Ok(Scratch {
            turns: vec![in alloc; 0u128; n]?,
        })
    }

    /// How many members there is room for.
    pub fn room(&self) -> usize
        ensures { result ≡ self.now }
    {
        self.turns.len()
    }
}
