//! Graphs of segments: what may run after what. Each call says the whole graph that it leaves.
#![tactic(auto)]

mod change;
mod fork;
mod graph;
mod lists;
mod make;
mod segment;
#[cfg(test)]
mod tests;

pub use fork::{Fork, ForkFault};
pub use graph::Graph;
pub use segment::{Label, Segment, SegmentId};
