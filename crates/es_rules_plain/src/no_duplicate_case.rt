ghost use Rattle.std.specs.Prelude.{◌≡◌, ◌<◌, ◌+◌, ◌||◌, ◌++◌, ◌∷◌, [], false, length, option_map, None, IfOk, IsTrue, OnOk};
ghost use Rattle.std.specs.Option.{option_map_or};
ghost use Rattle.es_text.specs.Texts.{text_bytes};
ghost use Rattle.es_host.specs.Files.{IsWhole, file_in, file_of, rows_in};
ghost use Rattle.es_host.specs.Nodes.{found};
ghost use Rattle.es_host.specs.Spans.{findings_fit};
ghost use Rattle.es_rules_plain.specs.NoDuplicateCase.{Texts, are_texts, duplicate, has, no_duplicate_case, said_at, same};
ghost use Rattle.es_rules_plain.specs.NoDuplicateCase.{stands_before, test_texts, texts_in, texts_of};

use es_host::{Ctx, FileView, SimpleNodeRule, count_places, plain};
use es_text::{Finding, NoMemory, Span, Txt};
use es_tree::field::TEST;
use es_tree::{child, kind};
use std::alloc::Global;
use std::collections::HashSet;

/// The field of a switch that has its clauses.
const CASES: u16 = 1;

/// Finds each clause of a switch whose test has the tokens of an earlier clause's test.
///
/// A switch costs the number of its tests' tokens.
#[derive(Drop)]
pub struct NoDuplicateCase;

impl SimpleNodeRule for NoDuplicateCase {
    ghost use Rattle.es_rules_plain.specs.NoDuplicateCase.{no_duplicate_case};

    ghost meaning = { no_duplicate_case };

    fn id(&self) -> &str {
        "no-duplicate-case"
    }

    fn kinds(&self) -> &[u16] {
        &[kind::SWITCH_STATEMENT]
    }

    fn judge(
        &self,
        alloc: Global,
        ctx: &Ctx,
        node: u32,
        findings: &mut Vec<Finding>,
    ) -> Result<(), NoMemory> {
        judge_switch(alloc, ctx, node, findings)
    }
}

/// Puts what is said of the clauses of a switch behind the findings.
fn judge_switch(
    alloc: Global,
    ctx: &Ctx,
    switch: u32,
    findings: &mut Vec<Finding>,
) -> Result<(), NoMemory>
    requires whole { IsWhole (file_of ctx.now) }
    requires node { switch < length (rows_in (file_of ctx.now)) }
    ensures found { OnOk result (findings.new.items ≡ findings.old.items ++ no_duplicate_case.finds (file_of ctx.now) switch) }
    ensures inside { OnOk result (IsTrue (findings_fit (text_bytes (file_of ctx.now).text) findings.old.items)
        → IsTrue (findings_fit (text_bytes (file_of ctx.now).text) findings.new.items)) }
{
    let mut seen = HashSet::new(alloc);
    for index in 0..count_places(&ctx.file.parsed.tree, switch, CASES) {
        judge_clause(alloc, ctx, switch, index, &mut seen, findings)?;
    }
    Ok(())
}

/// Puts what is said of the clause at this index of a switch behind the findings, where the tests of the
/// clauses before it were seen, and sees its own.
fn judge_clause<'a>(
    alloc: Global,
    ctx: &'a Ctx,
    switch: u32,
    index: u32,
    seen: &mut HashSet<Vec<&'a str>>,
    findings: &mut Vec<Finding>,
) -> Result<(), NoMemory>
    requires whole { IsWhole (file_of ctx.now) }
    requires node { switch < length (rows_in (file_of ctx.now)) }
    requires seen { (texts : Texts) → has seen.old texts ≡ stands_before (file_of ctx.now) switch index (texts_of texts) }
    ensures seen { OnOk result ((texts : Texts) →
        has seen.new texts ≡ stands_before (file_of ctx.now) switch (index + 1) (texts_of texts)) }
    ensures found { OnOk result (findings.new.items ≡ findings.old.items ++ said_at (file_of ctx.now) switch index) }
    ensures inside { OnOk result (IsTrue (findings_fit (text_bytes (file_of ctx.now).text) findings.old.items)
        → IsTrue (findings_fit (text_bytes (file_of ctx.now).text) findings.new.items)) }
{
    let Some(clause) = ctx.file.parsed.tree.field(switch, CASES, index) else {
        return Ok(());
    };
    let texts = test_texts(alloc, ctx, clause)?;
    if is_seen(seen, texts)? {
        ctx.report(ctx.file.span_of(clause), duplicate(alloc)?, None, findings)?;
    }
    Ok(())
}

/// The texts of the tokens of the clause's test, or `None` for a `default`.
fn test_texts<'a>(
    alloc: Global,
    ctx: &'a Ctx,
    clause: u32,
) -> Result<Option<Vec<&'a str>>, NoMemory>
    requires { IsWhole (file_of ctx.now) }
    ensures { IfOk result (λ texts. option_map texts_of texts ≡ test_texts (file_of ctx.now) clause) }
{
    match child(&ctx.file.parsed.tree, clause, TEST) {
        Some(test) => Ok(Some(texts_in(alloc, ctx.file, ctx.file.span_of(test))?)),
        None => Ok(None),
    }
}

/// The texts of the tokens in the span.
fn texts_in<'a>(alloc: Global, file: &'a FileView, span: Span) -> Result<Vec<&'a str>, NoMemory>
    requires { IsWhole (file_in file.now) }
    ensures { IfOk result (λ texts. texts_of texts ≡ texts_in (file_in file.now) span) }
{
    let mut texts = Vec::new(alloc);
    for token in file.tokens_in(span) {
        texts.push(file.text_of(token.span))?;
    }
    Ok(texts)
}

/// Whether there are texts and they were seen; then they are.
fn is_seen<'a>(
    seen: &mut HashSet<Vec<&'a str>>,
    texts: Option<Vec<&'a str>>,
) -> Result<bool, NoMemory>
    ensures told { IfOk result (λ told. told ≡ option_map_or (has seen.old) texts.entry false) }
    ensures more { OnOk result ((other : Texts) →
        has seen.new other ≡ (are_texts (texts_of other) (option_map texts_of texts.entry) || has seen.old other)) }
{
    match texts {
        Some(texts) => see(seen, texts),
        None => Ok(false),
    }
}

/// Whether the texts were seen; then they are.
fn see<'a>(seen: &mut HashSet<Vec<&'a str>>, texts: Vec<&'a str>) -> Result<bool, NoMemory>
    ensures told { IfOk result (λ told. told ≡ has seen.old texts.entry) }
    ensures more { OnOk result ((other : Texts) →
        has seen.new other ≡ (same texts.entry other || has seen.old other)) }
{
    let added = seen.insert(texts)?;
    Ok(!added)
}

#[tactic(auto, unfolding(crate::specs::NoDuplicateCase::duplicate))]
fn duplicate(alloc: Global) -> Result<Txt, NoMemory>
    ensures { IfOk result (λ text. text ≡ duplicate) }
{
    plain(alloc, "Duplicate case label.")
}
