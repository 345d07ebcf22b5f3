//! One run of the program, from its words and the held bytes to the printed report and the status.
#![tactic(auto)]

mod configuring;
mod ending;
mod gathering;
mod generating;
#[cfg(test)]
mod generating_tests;
#[cfg(test)]
mod limit_tests;
mod linting;
mod reporting;
mod runner;
mod settings;
#[cfg(test)]
mod stage_tests;
mod status;
mod stopping;

pub use runner::run;
pub use status::{Status, StopCause, status_code};
