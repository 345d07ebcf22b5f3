//! What the words of a command line ask for.
#![tactic(auto)]

mod command;
mod names;
mod number;
mod plan;
mod reading;
#[cfg(test)]
mod tests;
mod words;

pub use plan::{LintPlan, Plan, PlanFault};
pub use reading::read_plan;
