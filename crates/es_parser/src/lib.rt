//! Reads programs by the grammar.
#![tactic(auto)]

mod beginnings;
mod conditions;
mod directives;
mod drafts;
#[cfg(test)]
mod early_texts;
#[cfg(test)]
mod expression_texts;
mod fronts;
#[cfg(test)]
mod function_texts;
mod heads;
mod items;
mod law;
mod leaves;
#[cfg(test)]
mod limit_texts;
#[cfg(test)]
mod module_texts;
mod nodes;
mod parser;
mod parts;
mod program;
mod reached;
mod reader;
mod reading;
mod sets;
mod sketches;
#[cfg(test)]
mod statement_texts;
mod terminals;
mod tested;
#[cfg(test)]
mod tests;
mod text_sets;

pub use law::one_parse;
pub use parser::{ParseFault, parse};
