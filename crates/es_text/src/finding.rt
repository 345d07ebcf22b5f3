use crate::span::Span;
use crate::txt::Txt;

/// How serious a report is, as ESLint's levels, without `off`.
#[derive(Clone, Copy, Debug, PartialEq, Eq)]
pub enum Severity {
    /// Level 1: it is told.
    Warn,
    /// Level 2: it is told, and the run fails.
    Error,
}

/// A change that would mend what was found: the text that comes in place of the span's.
#[derive(Drop, Debug)]
pub struct Fix {
    /// What is replaced.
    pub span: Span,
    /// What comes in its place.
    pub text: Txt,
}

/// What a rule found: where, what it says of it, and how to mend it if the rule knows.
#[derive(Drop, Debug)]
pub struct Finding {
    /// What it speaks of.
    pub span: Span,
    /// What it says.
    pub text: Txt,
    /// A change that mends it, if the rule knows one.
    pub fix: Option<Fix>,
}

/// A finding with the rule that made it.
#[derive(Drop, Debug)]
pub struct Report {
    /// The id of the rule, or `None` where no rule made the report.
    pub rule: Option<Txt>,
    /// The rule's index in its kit, from 0, and 0 where no rule made the report.
    pub order: u32,
    /// How serious it is.
    pub severity: Severity,
    /// What it says.
    pub text: Txt,
    /// What it speaks of.
    pub span: Span,
    /// A change that mends it, if the rule knows one.
    pub fix: Option<Fix>,
    /// Whether the text wasn't read at all, so that no rule heard it.
    pub fatal: bool,
}
