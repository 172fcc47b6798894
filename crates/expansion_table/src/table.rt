// An expansion table as it lies in memory.
use std::marker::Model;

/// The sums for kicks and for drifts from tick 0 on, in ticks.
#[derive(Clone, Copy)]
pub(crate) struct Sums {
    pub(crate) kick: u64,
    pub(crate) drift: u64,
}

impl Model for Sums {
    ghost use Rattle.nbody_model.specs.Tables.{ExpansionEntry};

    ghost Value = { ExpansionEntry };

    ghost view = { λ e. record { kick = e.kick; drift = e.drift } };

    ghost inverse = { λ v. record { kick = v.kick; drift = v.drift } };
}

/// A table of sums for kicks and for drifts at the ticks 0, `2^s`, `2 * 2^s` and so on. Both are 0 at tick 0, and go
/// up from each entry to the next by at most the ticks between.
#[derive(Drop)]
pub struct Expansion {
    pub(crate) s: u32,
    pub(crate) entries: Vec<Sums>,
}

impl Model for Expansion {
    ghost use Rattle.nbody_model.specs.Tables.{ExpansionData, IsExpansion};

    ghost Value = { ExpansionData };

    ghost view = { λ e. record { s = e.s; entries = e.entries.items } };

    ghost invariant = { λ e. IsExpansion (record { s = e.s; entries = e.entries.items }) };
}
