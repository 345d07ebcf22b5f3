//! Rules that look at a file as a whole, and what makes rules of them.
ghost use Rattle.std.specs.Prelude.{◌≡◌, false, List, [], IfOk, OnOk, IsTrue};
ghost use Rattle.es_text.specs.Texts.{text_bytes};
ghost use Rattle.es_settings.specs.declared.verdict.Verdict.TheVariants.{Fine};
ghost use Rattle.es_settings.specs.Settings.{Options, have_float, options_of};
ghost use Rattle.es_host.specs.Files.{IsWhole, file_in};
ghost use Rattle.es_host.specs.Nodes.{FileMeaning, is_plain};
ghost use Rattle.es_host.specs.Spans.{findings_fit};

use crate::file::{Ctx, FileView};
use crate::order::in_order;
use crate::rule::Rule;
use es_selectors::Selector;
use es_settings::Verdict;
use es_text::{Finding, NoMemory};
use serde_json::Value;
use std::alloc::Global;

/// A rule that looks at a file as a whole: `EachFile` makes a `Rule` of it.
///
/// It keeps its options and nothing else. What it means is said of its type. One that takes no options is a
/// `SimpleFileRule`.
pub trait FileRule: Drop {
    /// Its id, its verdict on options, and what it finds in a file under options.
    ghost meaning: { FileMeaning };

    /// That it keeps these options.
    ghost keeps: { Self → Options → Type 0 };

    /// Its id, in ASCII.
    fn id(&self) -> &str
        ensures id { result.now ≡ meaning.id }
        ensures plain { IsTrue (is_plain result.now) };

    /// Whether it takes the options. No rule takes a floating-point number.
    fn verdict(&self, alloc: Global, options: &[Value]) -> Result<Verdict, NoMemory>
        ensures verdict { IfOk result (λ verdict. verdict ≡ meaning.verdict (options_of options.now)) }
        ensures floats { IfOk result (λ verdict. verdict ≡ Fine → have_float (options_of options.now) ≡ false) };

    /// Keeps these options, and no earlier ones.
    fn set(&mut self, alloc: Global, options: &[Value]) -> Result<(), NoMemory>
        requires { meaning.verdict (options_of options.now) ≡ Fine }
        ensures { OnOk result (keeps self.new (options_of options.now)) };

    /// What it finds in the file.
    fn judge(&self, alloc: Global, file: &FileView) -> Result<Vec<Finding>, NoMemory>
        requires { IsWhole (file_in file.now) }
        ensures found { (options : Options) → keeps self.now options →
            IfOk result (λ findings. findings.items ≡ meaning.finds (file_in file.now) options) }
        ensures inside { IfOk result (λ findings.
            IsTrue (findings_fit (text_bytes (file_in file.now).text) findings.items)) };
}

/// The rule that says of a file what a rule of files finds, in the order of the text.
#[derive(Drop)]
pub struct EachFile<J> {
    rule: J,
}

impl<J: FileRule> EachFile<J> {
    pub fn new(rule: J) -> EachFile<J> {
        EachFile { rule }
    }
}

impl<J: FileRule> Rule for EachFile<J> {
    ghost use Rattle.es_host.specs.Nodes.{of_files};

    ghost meaning = { λ _. of_files J.meaning };

    ghost heard = { λ each _ options _. J.keeps each.rule options };

    fn id(&self) -> &str {
        self.rule.id()
    }

    fn verdict(&self, alloc: Global, options: &[Value]) -> Result<Verdict, NoMemory> {
        self.rule.verdict(alloc, options)
    }

    fn begin(&mut self, alloc: Global, options: &[Value]) -> Result<(), NoMemory> {
        self.rule.set(alloc, options)
    }

    fn interest(&self) -> &[Selector] {
        &[]
    }

    fn on_node(
        &mut self,
        _alloc: Global,
        _ctx: &Ctx,
        _node: u32,
        _which: u32,
    ) -> Result<(), NoMemory> {
        Ok(())
    }

    fn finish(&mut self, alloc: Global, ctx: &Ctx) -> Result<Vec<Finding>, NoMemory> {
        let findings = self.rule.judge(alloc, ctx.file)?;
        in_order(findings)
    }
}
