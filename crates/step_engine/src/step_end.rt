// How a base step ends.
use crate::Depths;

/// How many kicks a call made, and the interactions of all their forces, those among the fast bodies besides.
#[derive(Clone, Copy, Debug, PartialEq, Eq)]
pub struct StepCount {
    pub kicks: u64,
    pub interactions: u128,
}

/// Why a base step didn't come to its end.
#[derive(Debug, Drop)]
pub enum StepEnd {
    /// A momentum would leave ±2^62 in the kick of a tick and a bin: the least such id, and its least such axis (0, 1, 2).
    MomRange {
        tick: u64,
        bin: u8,
        id: u64,
        axis: u8,
    },
    /// A body needs a step that is finer than the least bin has: the tick, and the least such id.
    StepRange {
        tick: u64,
        id: u64,
    },
    /// What happened couldn't be handed out: the count of faults rose.
    OutFault,
    /// It rests at a resting point of this tick, where the answer was yes: the depth of each body, and the kicks so far.
    Rest {
        tick: u64,
        depth: Depths,
        count: StepCount,
    },
    /// Want of memory.
    Memory,
}
