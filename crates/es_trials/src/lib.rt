//! What the rules, the scopes and configurations say of texts: tests alone, over the crates below.
#![tactic(auto)]

#[cfg(test)]
mod plain_texts;
#[cfg(test)]
mod reading_tests;
#[cfg(test)]
mod rule_tests;
#[cfg(test)]
mod scope_rule_tests;
#[cfg(test)]
mod scope_rule_texts;
#[cfg(test)]
mod scope_tests;
#[cfg(test)]
mod syntax_tests;
#[cfg(test)]
mod syntax_texts;
