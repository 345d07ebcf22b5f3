//! The outside as the engine sees it: files under their names, and sinks of bytes.
#![tactic(auto)]

mod contents;
mod failure;
mod memory;
mod outside;
mod plan;
mod real;
mod streams;
mod sure;

pub use memory::{MemoryFiles, MemorySink};
pub use outside::{Files, ReadFault, Sink, SinkFault, WriteFault};
pub use real::{RealErr, RealFiles, RealOut};
pub use sure::{SureFiles, SureSink};

#[cfg(test)]
mod stream_tests;
#[cfg(test)]
mod tests;
