//! The outside as two traits, files to read and sinks to write, with their meanings in memory and for real.
#![tactic(auto)]

mod faults;
mod files;
mod host;
mod memory_files;
mod memory_sink;
mod sink;
#[cfg(test)]
mod tests;

pub use files::{FileErr, Files};
pub use host::{HostFiles, HostSink};
pub use memory_files::{MemFile, MemFiles, SureFiles};
pub use memory_sink::{MemSink, SureSink};
pub use sink::{Sink, SinkErr, put_all};
