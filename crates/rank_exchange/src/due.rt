// What a rank still waits for.

/// How many ranks are still to send their entries, their sums, their members and their parts.
#[derive(Clone, Copy)]
pub(crate) struct Due {
    pub(crate) tables: u32,
    pub(crate) sums: u32,
    pub(crate) members: u32,
    pub(crate) parts: u32,
}
