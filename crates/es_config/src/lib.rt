//! Configurations of the linter: which files are linted, and what is set for each.
#![tactic(auto)]

mod config;
mod decision;
#[cfg(test)]
mod decision_tests;
mod entry;
mod entry_keys;
mod fault;
mod file_globs;
mod laying;
mod pointer;
mod reading;
mod rule_changes;
mod said_globals;
mod shapes;
mod standing;

pub use config::Config;
pub use decision::{Decision, for_name};
pub use entry::{Entry, RuleChange};
pub use fault::{ConfigFault, FaultKind};
pub use reading::read;
