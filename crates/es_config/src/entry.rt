use es_globs::Glob;
use es_settings::GlobalUse;
use es_text::{Items, Severity, SourceType, Txt};
use serde_json::Value;

/// What an entry of a configuration sets for a rule.
#[derive(Drop)]
pub struct RuleChange {
    /// The rule's place among those that are known, from 0.
    pub place: u32,
    /// How serious its reports are, or `None` where it is off.
    pub severity: Option<Severity>,
    /// Its options; `None` where the entry gives a severity alone, so that earlier options stay.
    pub options: Option<Items<Value>>,
}

/// An entry of a configuration: which files it is for, and what it sets for them. What it doesn't set is `None`, or
/// isn't in the list.
#[derive(Drop)]
pub struct Entry {
    /// Its `files`: of one of these lists each glob has to match. `None` where it has none.
    pub files: Option<Items<Items<Glob>>>,
    /// Its `ignores`; none where it has none.
    pub ignores: Items<Glob>,
    /// Whether it has `ignores` and besides at most a name, and so ignores files for all entries.
    pub alone: bool,
    /// What files are read as.
    pub source_type: Option<SourceType>,
    /// Names that are global variables, or aren't, each once, in the order of their bytes.
    pub globals: Items<(Txt, GlobalUse)>,
    /// Whether comments may change what is set.
    pub inline: Option<bool>,
    /// How serious it is that a comment disables nothing; `Some(None)` where that isn't told.
    pub unused: Option<Option<Severity>>,
    /// What is set for rules, each at most once, in the order of their ids' bytes.
    pub rules: Items<RuleChange>,
}
