//! The grammar of ECMAScript 2022 as data: a rule for each symbol, in the order and mostly with the names
//! of ECMA-262, and what a text reads by it.
#![tactic(auto)]

mod context;
mod draft;
mod expressions;
mod first;
mod functions;
mod law;
mod modules;
mod notation;
mod part;
mod rule;
mod statements;
mod symbol;
mod terminal;
#[cfg(test)]
mod tests;

pub use context::{Change, Context, Spot};
pub use draft::{Child, Draft, Outcome, Setting};
pub use first::can_begin;
pub use law::{nodes_lie, one_answer, one_code, one_reading};
pub use part::{
    Alternative, Condition, Field, GREATEST_HEIGHT, MemberKind, Part, Product, ROOM, Rule,
    Terminal, Turns,
};
pub use rule::rule_at;
pub use symbol::Symbol;
