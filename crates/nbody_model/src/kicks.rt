// What is told of a kick.

/// One kick: its tick and bin, how many bodies were kicked and how many of them are fast, the interactions
/// of the force among all of them and of that among the fast ones, and the momentum of all bodies after it.
#[derive(Clone, Copy, Debug, PartialEq, Eq)]
pub struct Record {
    pub tick: u64,
    pub bin: u8,
    pub whole: u32,
    pub fast: u32,
    pub pairs: u64,
    pub fast_pairs: u64,
    pub total: [i128; 3],
}
