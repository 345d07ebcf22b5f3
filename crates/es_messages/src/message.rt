ghost use Rattle.std.specs.Prelude.{◌≡◌, IfOk};

use es_text::{Items, NoMemory, Severity, Txt};
use std::alloc::Global;

/// A change that would mend what a message tells, as ESLint gives it.
#[derive(Drop)]
pub struct UnitFix {
    /// Where what is replaced starts, in UTF-16 code units of the text.
    pub start: u32,
    /// Where it ends, in the same units.
    pub end: u32,
    /// What comes in its place.
    pub text: Txt,
}

/// What is told of a file.
#[derive(Drop)]
pub struct Message {
    /// The id of the rule, or `None` where no rule made the report.
    pub rule: Option<Txt>,
    /// How serious it is.
    pub severity: Severity,
    /// What it says.
    pub text: Txt,
    /// The line where what it speaks of starts, from 1.
    pub line: u32,
    /// The column where it starts, from 1, in UTF-16 code units.
    pub column: u32,
    /// The line where it ends, from 1.
    pub end_line: u32,
    /// The column where it ends, from 1, in UTF-16 code units.
    pub end_column: u32,
    /// A change that mends it, if the rule knows one.
    pub fix: Option<UnitFix>,
    /// Whether the text wasn't read at all.
    pub fatal: bool,
}

/// What linting a file gives.
#[derive(Drop)]
pub struct FileResult {
    /// What is told of it.
    pub messages: Items<Message>,
    /// What comments suppress.
    pub suppressed: Items<Message>,
    /// The text after its fixes, if one was made.
    pub output: Option<Txt>,
}

impl UnitFix {
    /// An equal fix in memory of its own, or `NoMemory`.
    pub fn copy(&self, alloc: Global) -> Result<UnitFix, NoMemory>
        ensures { IfOk result (λ copy. copy ≡ self.now) }
    {
        Ok(UnitFix {
            start: self.start,
            end: self.end,
            text: self.text.copy(alloc)?,
        })
    }
}

impl Message {
    /// An equal message in memory of its own, or `NoMemory`.
    pub fn copy(&self, alloc: Global) -> Result<Message, NoMemory>
        ensures { IfOk result (λ copy. copy ≡ self.now) }
    {
        Ok(Message {
            rule: copy_text(alloc, &self.rule)?,
            severity: self.severity,
            text: self.text.copy(alloc)?,
            line: self.line,
            column: self.column,
            end_line: self.end_line,
            end_column: self.end_column,
            fix: copy_fix(alloc, &self.fix)?,
            fatal: self.fatal,
        })
    }
}

impl FileResult {
    /// An equal result in memory of its own, or `NoMemory`.
    pub fn copy(&self, alloc: Global) -> Result<FileResult, NoMemory>
        ensures { IfOk result (λ copy. copy ≡ self.now) }
    {
        Ok(FileResult {
            messages: copy_all(alloc, self.messages.as_slice())?,
            suppressed: copy_all(alloc, self.suppressed.as_slice())?,
            output: copy_text(alloc, &self.output)?,
        })
    }
}

fn copy_text(alloc: Global, text: &Option<Txt>) -> Result<Option<Txt>, NoMemory>
    ensures { IfOk result (λ copy. copy ≡ text.now) }
{
    match text {
        Some(text) => Ok(Some(text.copy(alloc)?)),
        None => Ok(None),
    }
}

fn copy_fix(alloc: Global, fix: &Option<UnitFix>) -> Result<Option<UnitFix>, NoMemory>
    ensures { IfOk result (λ copy. copy ≡ fix.now) }
{
    match fix {
        Some(fix) => Ok(Some(fix.copy(alloc)?)),
        None => Ok(None),
    }
}

fn copy_all(alloc: Global, messages: &[Message]) -> Result<Items<Message>, NoMemory>
    ensures { IfOk result (λ copies. copies ≡ messages.now) }
{
    let mut copies = Items::new(alloc);
    for message in messages {
        copies.push(message.copy(alloc)?)?;
    }
    Ok(copies)
}
