use es_settings::GlobalUse;
use es_text::{Items, Severity, Span, Txt};

/// What a mark does to the reports that it names.
#[derive(Clone, Copy, Debug, PartialEq, Eq)]
pub enum MarkKind {
    /// It suppresses them from here on.
    Disable,
    /// It lets them stand again from here on.
    Enable,
    /// It suppresses those that start on this line, from 1.
    Line(u32),
}

/// A comment that suppresses reports or lets them stand again.
#[derive(Drop)]
pub struct Mark {
    /// What it does.
    pub kind: MarkKind,
    /// The ids of the rules whose reports it names; where there are none, it names those of all rules.
    pub rules: Items<Txt>,
    /// The comment.
    pub span: Span,
}

/// A part of a comment that sets how serious the reports of a rule are.
#[derive(Drop)]
pub struct Entry {
    /// What stands as the rule's id, known or not.
    pub rule: Txt,
    /// How serious they are, or `None` where the rule is off.
    pub severity: Option<Severity>,
    /// The part.
    pub span: Span,
}

/// A part of a comment that sets something, but has another form.
#[derive(Drop)]
pub struct BadEntry {
    /// The part.
    pub text: Txt,
    /// The comment.
    pub span: Span,
}

/// What the comments of a text say, each list in their order.
#[derive(Drop)]
pub struct DirectiveList {
    /// Which reports are suppressed.
    pub marks: Items<Mark>,
    /// How serious the reports of rules are; of two with one rule the later counts.
    pub entries: Items<Entry>,
    /// Parts of other forms.
    pub bad: Items<BadEntry>,
    /// Which names are global variables; of two with one name the later counts.
    pub globals: Items<(Txt, GlobalUse)>,
}
