//! Snapshots: a head and four columns in framed blocks, read to a set of bodies and written from one.
#![tactic(auto)]

mod column;
mod errors;
mod find;
mod head;
mod put;
mod read;
mod round_trip;
mod rows;
mod write;

pub use errors::SnapErr;
pub use head::{Head, read_head};
pub use put::put_snapshot;
pub use read::read_snapshot;
pub use round_trip::{reading_is_exact, written_snapshots_are_read};
pub use write::write_snapshot;

#[cfg(test)]
mod tests;
