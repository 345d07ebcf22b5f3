//! Rules that look at one node at a time, and what makes rules of them.
ghost use Rattle.std.specs.Prelude.{ℕ, ◌≡◌, ◌<◌, false, List, [], ◌++◌, All, length, IfOk, OnOk, IsTrue};
ghost use Rattle.std.specs.List.{flat_map};
ghost use Rattle.es_text.specs.Texts.{text_bytes};
ghost use Rattle.es_settings.specs.declared.verdict.Verdict.TheVariants.{Fine};
ghost use Rattle.es_settings.specs.Settings.{Options, have_float, options_of};
ghost use Rattle.es_host.specs.Files.{File, IsWhole, file_of, rows_in};
ghost use Rattle.es_host.specs.Lawful.{is_asked};
ghost use Rattle.es_host.specs.Nodes.{NodeMeaning, finds_at, is_plain};
ghost use Rattle.es_host.specs.Order.{ordered};
ghost use Rattle.es_host.specs.Spans.{findings_fit};

use crate::file::Ctx;
use crate::order::in_order;
use crate::rule::Rule;
use es_selectors::Selector;
use es_settings::Verdict;
use es_text::{Finding, NoMemory};
use serde_json::Value;
use std::alloc::Global;

/// A rule that looks at one node at a time: `EachNode` makes a `Rule` of it.
///
/// It keeps its options and nothing else. What it means is said of its type. One that takes no options is a
/// `SimpleNodeRule`.
pub trait NodeRule: Drop {
    /// Its id, its verdict on options, and under options the selectors that it asks for and what it finds
    /// at a node that one of them matches.
    ghost meaning: { NodeMeaning };

    /// That it keeps these options.
    ghost keeps: { Self → Options → Type 0 };

    /// Its id, in ASCII.
    fn id(&self) -> &str
        ensures id { result.now ≡ meaning.id }
        ensures plain { IsTrue (is_plain result.now) };

    /// Whether it takes the options. No rule takes a floating-point number.
    fn verdict(&self, alloc: Global, options: &[Value]) -> Result<Verdict, NoMemory>
        ensures verdict { IfOk result (λ verdict. verdict ≡ meaning.verdict (options_of options.now)) }
        ensures floats { IfOk result (λ verdict. verdict ≡ Fine → have_float (options_of options.now) ≡ false) };

    /// Keeps these options, and no earlier ones.
    fn set(&mut self, alloc: Global, options: &[Value]) -> Result<(), NoMemory>
        requires { meaning.verdict (options_of options.now) ≡ Fine }
        ensures { OnOk result (keeps self.new (options_of options.now)) };

    /// The selectors that it asks for.
    fn interest(&self, alloc: Global) -> Result<Vec<Selector>, NoMemory>
        ensures { (options : Options) → keeps self.now options →
            IfOk result (λ selectors. selectors.items ≡ meaning.interest options) };

    /// Puts what it finds at the node, which the selector at the index `which` matches, behind the findings.
    fn judge(
        &self,
        alloc: Global,
        ctx: &Ctx,
        node: u32,
        which: u32,
        findings: &mut Vec<Finding>,
    ) -> Result<(), NoMemory>
        requires whole { IsWhole (file_of ctx.now) }
        requires node { node < length (rows_in (file_of ctx.now)) }
        requires asked { (options : Options) → keeps self.now options
            → IsTrue (is_asked (rows_in (file_of ctx.now)) (meaning.interest options) node which) }
        ensures found { (options : Options) → keeps self.now options → OnOk result
            (findings.new.items ≡ findings.old.items ++ meaning.finds (file_of ctx.now) options node which) }
        ensures inside { OnOk result (IsTrue (findings_fit (text_bytes (file_of ctx.now).text) findings.old.items)
            → IsTrue (findings_fit (text_bytes (file_of ctx.now).text) findings.new.items)) };
}

/// A node that was told, with the index of the selector that matches it.
#[derive(Clone, Copy)]
pub struct Asked {
    pub node: u32,
    pub which: u32,
}

/// The rule that says of a file what a rule of nodes finds at each node that it asks for, in the order of
/// the text.
#[derive(Drop)]
pub struct EachNode<J> {
    rule: J,
    selectors: Vec<Selector>,
    asked: Vec<Asked>,
}

impl<J: NodeRule> EachNode<J> {
    pub fn new(alloc: Global, rule: J) -> EachNode<J> {
        EachNode {
            rule,
            selectors: Vec::new(alloc),
            asked: Vec::new(alloc),
        }
    }
}

impl<J: NodeRule> Rule for EachNode<J> {
    ghost use Rattle.std.specs.Prelude.{◌≡◌, map};
    ghost use Rattle.es_settings.specs.Settings.{Options};
    ghost use Rattle.es_host.specs.Nodes.{asked_of, of_nodes};

    ghost meaning = { λ _. of_nodes J.meaning };

    ghost heard = { λ each file options events. J.keeps each.rule options
        × ((kept : Options) → J.keeps each.rule kept → each.selectors.items ≡ J.meaning.interest kept)
        × (each.asked.items ≡ map asked_of events) };

    fn id(&self) -> &str {
        self.rule.id()
    }

    fn verdict(&self, alloc: Global, options: &[Value]) -> Result<Verdict, NoMemory> {
        self.rule.verdict(alloc, options)
    }

    fn begin(&mut self, alloc: Global, options: &[Value]) -> Result<(), NoMemory> {
        self.rule.set(alloc, options)?;
        self.selectors = self.rule.interest(alloc)?;
        self.asked.clear();
        Ok(())
    }

    fn interest(&self) -> &[Selector] {
        self.selectors.as_slice()
    }

    fn on_node(
        &mut self,
        _alloc: Global,
        _ctx: &Ctx,
        node: u32,
        which: u32,
    ) -> Result<(), NoMemory> {
        self.asked.push(Asked { node, which })?;
        Ok(())
    }

    fn finish(&mut self, alloc: Global, ctx: &Ctx) -> Result<Vec<Finding>, NoMemory> {
        // The nodes of a tree have numbers, as its call says.
        let _count = ctx.file.parsed.tree.count();
        judge_all(alloc, ctx, &self.rule, self.asked.as_slice())
    }
}

/// What the rule finds at these nodes, in the order of findings.
fn judge_all<J: NodeRule>(
    alloc: Global,
    ctx: &Ctx,
    rule: &J,
    asked: &[Asked],
) -> Result<Vec<Finding>, NoMemory>
    requires whole { IsWhole (file_of ctx.now) }
    requires nodes { All (λ one. one.node < length (rows_in (file_of ctx.now))) asked.now }
    requires asked { (options : Options) → J.keeps rule.now options →
        All (λ one. IsTrue (is_asked (rows_in (file_of ctx.now)) (J.meaning.interest options) one.node one.which)) asked.now }
    ensures found { (options : Options) → J.keeps rule.now options → IfOk result (λ findings.
        findings.items ≡ ordered (flat_map (finds_at J.meaning (file_of ctx.now) options) asked.now)) }
    ensures inside { IfOk result (λ findings. IsTrue (findings_fit (text_bytes (file_of ctx.now).text) findings.items)) }
{
    let mut findings = Vec::new(alloc);
    for one in asked {
        rule.judge(alloc, ctx, one.node, one.which, &mut findings)?;
    }
    in_order(findings)
}
