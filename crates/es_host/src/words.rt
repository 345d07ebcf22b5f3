//! What rules are written with.
ghost use Rattle.std.specs.Prelude.{◌≡◌, ◌<◌, false, ◌∷◌, ◌++◌, [], None, length, map, IfOk, IsTrue, OnOk};
ghost use Rattle.es_text.specs.Spans.{is_part};
ghost use Rattle.es_text.specs.Texts.{text_bytes};
ghost use Rattle.es_settings.specs.Settings.{have_float, options_of};
ghost use Rattle.es_settings.specs.declared.verdict.Verdict.TheVariants.{Fine};
ghost use Rattle.es_host.specs.Files.{IsWhole, file_in, file_of, rows_in};
ghost use Rattle.es_host.specs.Nodes.{count_places, found, is_plain, of_kind, parent_kind, span_at, takes_none};
ghost use Rattle.es_host.specs.Spans.{findings_fit, fix_fits};

use crate::file::{Ctx, FileView};
use es_selectors::{Atom, Chain, Selector, Spelling};
use es_settings::Verdict;
use es_text::{Finding, Fix, Items, NoMemory, Span, Txt, parts_lie};
use es_tree::{Attribute, Tree};
use serde_json::Value;
use std::alloc::Global;

/// The verdict of a rule that takes no options.
pub fn no_options(options: &[Value]) -> Verdict
    ensures verdict { result ≡ takes_none (options_of options.now) }
    ensures floats { result ≡ Fine → have_float (options_of options.now) ≡ false }
{
    if options.is_empty() {
        Verdict::Fine
    } else {
        Verdict::BadOption
    }
}

/// The selector of the nodes of this kind.
pub fn of_kind(alloc: Global, kind: u16) -> Result<Selector, NoMemory>
    ensures { IfOk result (λ selector. selector ≡ of_kind kind) }
{
    let mut compound = Items::new(alloc);
    compound.push(Atom::Kind(Some(kind)))?;
    let mut chains = Items::new(alloc);
    chains.push(Chain {
        first: compound,
        links: Items::new(alloc),
    })?;
    Ok(Selector::new(Spelling {
        chains,
        exit: false,
    }))
}

/// The selectors of the nodes of these kinds, one for each.
pub fn of_kinds(alloc: Global, kinds: &[u16]) -> Result<Vec<Selector>, NoMemory>
    ensures { IfOk result (λ selectors. selectors.items ≡ map of_kind kinds.now) }
{
    let mut selectors = Vec::new(alloc);
    for kind in kinds {
        selectors.push(of_kind(alloc, *kind)?)?;
    }
    Ok(selectors)
}

/// How many children and holes stand in the list field of the node; none where it is no list of its kind.
pub fn count_places(tree: &Tree, node: u32, field: u16) -> u32
    requires { node < length tree.now }
    ensures { result ≡ count_places tree.now node field }
{
    match tree.attribute(node, field) {
        Attribute::Length(count) => count,
        Attribute::Absent | Attribute::Flag(_) | Attribute::Words(_) => 0,
    }
}

/// A copy of a text of ASCII, whose bytes are its characters.
#[tactic(auto, using(crate::proofs::NodesLemmas::chars_plain))]
pub fn plain(alloc: Global, text: &str) -> Result<Txt, NoMemory>
    requires { IsTrue (is_plain text.now) }
    ensures { IfOk result (λ txt. txt ≡ text.now) }
{
    Txt::new(alloc, text)
}

impl FileView<'_> {
    /// The bytes of the text that the node covers, or the empty span at the text's start where no node has
    /// the number.
    pub fn span_of(&self, node: u32) -> Span
        requires { IsWhole (file_in self.now) }
        ensures span { result ≡ span_at (rows_in (file_in self.now)) node }
        ensures inside { IsTrue (is_part (text_bytes (file_in self.now).text) result) }
    {
        if node < self.parsed.tree.count() {
            let ctx = Ctx {
                file: self,
                ancestors: &[],
            };
            return ctx.span(node);
        }
        parts_lie();
        // A character begins at the start of a text, as its call says.
        let _text = self.source.text();
        Span { start: 0, end: 0 }
    }
}

impl Ctx<'_> {
    /// The bytes of the text that the node covers.
    pub fn span(&self, node: u32) -> Span
        requires whole { IsWhole (file_of self.now) }
        requires node { node < length (rows_in (file_of self.now)) }
        ensures span { result ≡ span_at (rows_in (file_of self.now)) node }
        ensures inside { IsTrue (is_part (text_bytes (file_of self.now).text) result) }
    {
        self.file.parsed.tree.span(node)
    }

    /// The kind of the node's parent, or `None` for the Program.
    pub fn parent_kind(&self, node: u32) -> Option<u16>
        requires { node < length (rows_in (file_of self.now)) }
        ensures { result ≡ parent_kind (rows_in (file_of self.now)) node }
    {
        let parent = self.file.parsed.tree.parent(node)?;
        Some(self.file.parsed.tree.kind(parent))
    }

    /// Puts what is said of a part of the text behind the findings.
    pub fn report(
        &self,
        span: Span,
        text: Txt,
        fix: Option<Fix>,
        findings: &mut Vec<Finding>,
    ) -> Result<(), NoMemory>
        requires span { IsTrue (is_part (text_bytes (file_of self.now).text) span) }
        requires fix { IsTrue (fix_fits (text_bytes (file_of self.now).text) fix) }
        ensures found { OnOk result (findings.new.items ≡ findings.old.items ++ found span text fix ∷ []) }
        ensures inside { OnOk result (IsTrue (findings_fit (text_bytes (file_of self.now).text) findings.old.items)
            → IsTrue (findings_fit (text_bytes (file_of self.now).text) findings.new.items)) }
    {
        findings.push(Finding { span, text, fix })?;
        Ok(())
    }

    /// Puts what is said of a whole node, in ASCII, behind the findings.
    pub fn report_node(
        &self,
        alloc: Global,
        node: u32,
        text: &str,
        findings: &mut Vec<Finding>,
    ) -> Result<(), NoMemory>
        requires whole { IsWhole (file_of self.now) }
        requires node { node < length (rows_in (file_of self.now)) }
        requires plain { IsTrue (is_plain text.now) }
        ensures found { OnOk result (findings.new.items
            ≡ findings.old.items ++ found (span_at (rows_in (file_of self.now)) node) text.now None ∷ []) }
        ensures inside { OnOk result (IsTrue (findings_fit (text_bytes (file_of self.now).text) findings.old.items)
            → IsTrue (findings_fit (text_bytes (file_of self.now).text) findings.new.items)) }
    {
        self.report(self.span(node), plain(alloc, text)?, None, findings)
    }
}
