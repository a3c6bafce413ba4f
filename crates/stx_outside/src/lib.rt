//! Sources and sinks of bytes that count their faults, in memory and at standard input and output, and calls
//! that read and write them whole.
#![tactic(auto)]

mod failed;
mod memory_sink;
mod memory_source;
mod sink;
mod source;
mod standard;
mod whole;

pub use failed::Failed;
pub use memory_sink::MemorySink;
pub use memory_source::MemorySource;
pub use sink::Sink;
pub use source::Source;
pub use standard::{StdSink, StdSource};
pub use whole::{ReadEnd, read_whole, write_whole};

#[cfg(test)]
mod standard_tests;
#[cfg(test)]
mod tests;
