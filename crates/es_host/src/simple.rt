//! Rules without options.
ghost use Rattle.std.specs.Prelude.{◌≡◌, ◌<◌, ◌++◌, length, IfOk, IsTrue, OnOk};
ghost use Rattle.es_text.specs.Texts.{text_bytes};
ghost use Rattle.es_host.specs.Files.{IsWhole, file_in, file_of, rows_in};
ghost use Rattle.es_host.specs.Nodes.{SimpleFileMeaning, SimpleNodeMeaning, is_plain};
ghost use Rattle.es_host.specs.Spans.{findings_fit};

use crate::file::{Ctx, FileView};
use crate::files::FileRule;
use crate::nodes::NodeRule;
use crate::words::{no_options, of_kinds};
use es_selectors::Selector;
use es_settings::Verdict;
use es_text::{Finding, NoMemory};
use serde_json::Value;
use std::alloc::Global;

/// A rule that takes no options, asks for nodes of some kinds, and looks at one at a time. It keeps
/// nothing. What it means is said of its type.
pub trait SimpleNodeRule: Drop {
    /// Its id, the kinds that it asks for, and what it finds at a node of one of them.
    ghost meaning: { SimpleNodeMeaning };

    /// Its id, in ASCII.
    fn id(&self) -> &str
        ensures id { result.now ≡ meaning.id }
        ensures plain { IsTrue (is_plain result.now) };

    /// The kinds of the nodes that it asks for.
    fn kinds(&self) -> &[u16]
        ensures { result.now ≡ meaning.kinds };

    /// Puts what it finds at the node behind the findings.
    fn judge(
        &self,
        alloc: Global,
        ctx: &Ctx,
        node: u32,
        findings: &mut Vec<Finding>,
    ) -> Result<(), NoMemory>
        requires whole { IsWhole (file_of ctx.now) }
        requires node { node < length (rows_in (file_of ctx.now)) }
        ensures found { OnOk result
            (findings.new.items ≡ findings.old.items ++ meaning.finds (file_of ctx.now) node) }
        ensures inside { OnOk result (IsTrue (findings_fit (text_bytes (file_of ctx.now).text) findings.old.items)
            → IsTrue (findings_fit (text_bytes (file_of ctx.now).text) findings.new.items)) };
}

impl<J: SimpleNodeRule> NodeRule for J {
    ghost use Rattle.es_host.specs.Nodes.{simple_nodes};

    ghost meaning = { simple_nodes J.meaning };

    ghost keeps = { λ _ _. Unit {0} };

    fn id(&self) -> &str {
        SimpleNodeRule::id(self)
    }

    fn verdict(&self, _alloc: Global, options: &[Value]) -> Result<Verdict, NoMemory> {
        Ok(no_options(options))
    }

    fn set(&mut self, _alloc: Global, _options: &[Value]) -> Result<(), NoMemory> {
        Ok(())
    }

    fn interest(&self, alloc: Global) -> Result<Vec<Selector>, NoMemory> {
        of_kinds(alloc, self.kinds())
    }

    fn judge(
        &self,
        alloc: Global,
        ctx: &Ctx,
        node: u32,
        _which: u32,
        findings: &mut Vec<Finding>,
    ) -> Result<(), NoMemory> {
        SimpleNodeRule::judge(self, alloc, ctx, node, findings)
    }
}

/// A rule that takes no options and looks at a file as a whole. It keeps nothing. What it means is said
/// of its type.
pub trait SimpleFileRule: Drop {
    /// Its id, and what it finds in a file.
    ghost meaning: { SimpleFileMeaning };

    /// Its id, in ASCII.
    fn id(&self) -> &str
        ensures id { result.now ≡ meaning.id }
        ensures plain { IsTrue (is_plain result.now) };

    /// What it finds in the file.
    fn judge(&self, alloc: Global, file: &FileView) -> Result<Vec<Finding>, NoMemory>
        requires { IsWhole (file_in file.now) }
        ensures found { IfOk result (λ findings. findings.items ≡ meaning.finds (file_in file.now)) }
        ensures inside { IfOk result (λ findings.
            IsTrue (findings_fit (text_bytes (file_in file.now).text) findings.items)) };
}

impl<J: SimpleFileRule> FileRule for J {
    ghost use Rattle.es_host.specs.Nodes.{simple_file};

    ghost meaning = { simple_file J.meaning };

    ghost keeps = { λ _ _. Unit {0} };

    fn id(&self) -> &str {
        SimpleFileRule::id(self)
    }

    fn verdict(&self, _alloc: Global, options: &[Value]) -> Result<Verdict, NoMemory> {
        Ok(no_options(options))
    }

    fn set(&mut self, _alloc: Global, _options: &[Value]) -> Result<(), NoMemory> {
        Ok(())
    }

    fn judge(&self, alloc: Global, file: &FileView) -> Result<Vec<Finding>, NoMemory> {
        SimpleFileRule::judge(self, alloc, file)
    }
}
