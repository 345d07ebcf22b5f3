//! Control skeletons: what may run after what; and the graph of a skeleton.
#![tactic(auto)]

mod build;
mod completion;
mod fault;
mod law;
#[cfg(test)]
mod notation;
mod pending;
mod skeleton;
mod step;
#[cfg(test)]
mod tests;
#[cfg(test)]
mod walks;

pub use build::graph_of;
pub use completion::Completion;
pub use fault::SkeletonFault;
pub use law::one_count;
pub use skeleton::Skeleton;
