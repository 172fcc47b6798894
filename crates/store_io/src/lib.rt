//! Files, printed bytes, stops and schedules, each as a trait with a meaning.
#![tactic(auto)]

mod errors;
mod fault_plan;
mod file_map;
mod file_store;
mod mem_store;
mod pieces;
mod schedule;
mod sink;
mod stopper;
mod store;
mod text;
mod whole;

pub use errors::{IoErr, LenErr, ReadErr};
pub use file_store::FileStore;
pub use mem_store::MemStore;
pub use pieces::append_pieces;
pub use schedule::{LastSchedule, ListSchedule, Schedule, SeededSchedule};
pub use sink::{ConsoleSink, MemSink, Sink};
pub use stopper::{FileStop, NeverStop, StopAfter, Stopper};
pub use store::Store;
pub use text::Text;
pub use whole::read_whole;

#[cfg(test)]
mod tests;
