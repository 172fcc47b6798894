// How a run ended.
use store_io::Text;

/// How a run ended: at the last tick; by a stop; a file of this name couldn't be written; the momentum of a body left its
/// range in a kick; a body fits no bin; or memory was wanting.
#[derive(Debug, Drop)]
pub enum End {
    Done,
    Stopped,
    WriteFault {
        name: Text,
    },
    MomRange {
        tick: u64,
        bin: u8,
        id: u64,
        axis: u8,
    },
    StepRange {
        tick: u64,
        id: u64,
    },
    Memory,
}

/// How a run ended, and what is told of it: its tick, the base steps, the number of the next snapshot and the kicks so far,
/// the interactions of all their forces, and the momentum of all bodies.
#[derive(Debug, Drop)]
pub struct Ended {
    pub end: End,
    pub tick: u64,
    pub steps: u64,
    pub snapshots: u64,
    pub kicks: u64,
    pub interactions: u128,
    pub momentum: [i128; 3],
}
