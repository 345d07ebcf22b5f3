//! What is set for a file, and what a configuration may ask of the rules that it names.
#![tactic(auto)]

mod file_config;
mod global_use;
mod globals;
mod known;
mod mode;
#[cfg(test)]
mod tests;
mod verdict;

pub use file_config::{FileConfig, RuleSetting, copy_options};
pub use global_use::GlobalUse;
pub use globals::{add_copies, last_of_each};
pub use known::Known;
pub use mode::Mode;
pub use verdict::Verdict;
