//! Lints one text.
ghost use Rattle.std.specs.Prelude.{◌≡◌, ◌++◌, ◌<◌, IfErr, IfOk, IsTrue, OnOk};
ghost use Rattle.es_text.specs.Texts.{text_bytes};
ghost use Rattle.es_parser.specs.Parsing.{AreInText, IsFault, IsInText, IsParsed};
ghost use Rattle.es_settings.specs.Settings.{settings_of};
ghost use Rattle.es_host.specs.Files.{IsWhole, file_in};
ghost use Rattle.es_host.specs.Kits.{meanings_of};
ghost use Rattle.es_host.specs.Reports.{kit_says};
ghost use Rattle.es_host.specs.Spans.{fixes_fit, reports_fit};
ghost use Rattle.es_messages.specs.Directives.{comments_fit};
ghost use Rattle.es_lint.specs.Bad.{bad_in};
ghost use Rattle.es_lint.specs.Lintings.{FitsKit, IsTheLinting, Linting, Lints, comments_in, file_under, file_with, ids_of, linting_on};
ghost use Rattle.es_lint.specs.Order.{ordered};
ghost use Rattle.es_lint.specs.Results.{AtMost, more};
ghost use Rattle.es_lint.specs.Stages.{AtMostOnce, IsUnparsed, LiesWithin, linting_of, times};

use crate::bad::add_bad;
use crate::fatal::fatal_of;
use crate::order::in_order;
use crate::settings::settings_under;
use es_host::{FileView, Kit, Rule, listen};
use es_messages::{DirectiveList, Suppressed, directives, suppress};
use es_parser::{ParseFault, one_parse, parse};
use es_scopes::analyse;
use es_settings::{FileConfig, Known};
use es_text::{Comment, NoMemory, Report, Source, SourceType, Steps, Txt, parts_lie, tokens_lie};
use es_tree::Parsed;
use std::alloc::Global;
use std::marker::Brand;
use std::sync::ledger::{Blank, Ledger};

/// What linting a text gives: the reports that stand and those that comments suppress, each in order, and
/// whether the rules listened.
#[derive(Drop)]
pub struct Found {
    pub stand: Vec<Report>,
    pub suppressed: Vec<Report>,
    pub heard: bool,
}

/// What linting the source gives, under what is set for it.
pub fn lint_text<R: Rule>(
    alloc: Global,
    source: &Source,
    config: &FileConfig,
    kit: &mut Kit<R>,
) -> Result<Found, NoMemory>
    requires { FitsKit (meanings_of R.meaning kit.old) (settings_of config.now) }
    ensures linting { IfOk result (λ found.
        IsTheLinting (meanings_of R.meaning kit.old) (settings_of config.now) source.now (linting_of found)) }
    ensures inside { IfOk result (LiesWithin (text_bytes source.now)) }
    ensures same { meanings_of R.meaning kit.new ≡ meanings_of R.meaning kit.old }
    ensures lints { IfOk result (λ found. kit.new.lints ≡ more (times found.heard) kit.old.lints) }
    ensures lintings { (linting : Linting) → Lints (meanings_of R.meaning kit.old) (settings_of config.now) source.now linting
        → AtMost linting.heard kit.old.lints kit.new.lints }
    ensures once { AtMostOnce kit.old.lints kit.new.lints }
{
    one_parse();
    match counted_parse::<Brand>(alloc, source, config.source_type, Blank::new(1)) {
        Ok(parsed) => lint_parsed(alloc, source, &parsed, config, kit),
        Err(fault) => unparsed(alloc, source, fault),
    }
}

/// What parsing the source gives, on a count of its own.
fn counted_parse<L: Ledger>(
    alloc: Global,
    source: &Source,
    source_type: SourceType,
    blank: Blank,
) -> Result<Parsed, ParseFault>
    requires name { blank.name ≡ L.name }
    requires parts { blank.parts ≡ L.parts }
    requires some { 0 < blank.parts }
    ensures parsed { IfOk result (IsParsed (text_bytes source.now) source_type) }
    ensures fault { IfErr result (IsFault (text_bytes source.now) source_type) }
    ensures spans { IfOk result (λ parsed. AreInText (text_bytes source.now) parsed.tree) }
    ensures place { IfErr result (IsInText (text_bytes source.now)) }
{
    let mut steps = Steps::<L>::new(blank);
    parse(alloc, source, source_type, &mut steps)
}

/// The one report of a source that isn't parsed for this fault.
fn unparsed(alloc: Global, source: &Source, fault: ParseFault) -> Result<Found, NoMemory>
    requires { IsInText (text_bytes source.now) fault }
    ensures linting { IfOk result (λ found. IsUnparsed fault (linting_of found)) }
    ensures inside { IfOk result (LiesWithin (text_bytes source.now)) }
    ensures heard { IfOk result (λ found. times found.heard ≡ 0) }
{
    parts_lie();
    let mut stand = Vec::new(alloc);
    let fatal = fatal_of(alloc, fault)?;
    stand.push(fatal)?;
    Ok(Found {
        stand,
        suppressed: Vec::new(alloc),
        heard: false,
    })
}

/// What linting a source gives that is parsed as this.
fn lint_parsed<R: Rule>(
    alloc: Global,
    source: &Source,
    parsed: &Parsed,
    config: &FileConfig,
    kit: &mut Kit<R>,
) -> Result<Found, NoMemory>
    requires parsed { IsParsed (text_bytes source.now) config.now.source_type parsed.now }
    requires spans { AreInText (text_bytes source.now) parsed.now.tree }
    requires fits { FitsKit (meanings_of R.meaning kit.old) (settings_of config.now) }
    ensures linting { IfOk result (λ found. linting_of found
        ≡ linting_on (meanings_of R.meaning kit.old)
        (file_with source.now parsed.now (settings_of config.now))) }
    ensures inside { IfOk result (LiesWithin (text_bytes source.now)) }
    ensures same { meanings_of R.meaning kit.new ≡ meanings_of R.meaning kit.old }
    ensures heard { IfOk result (λ found. times found.heard ≡ 1) }
    ensures lints { OnOk result (kit.new.lints ≡ more 1 kit.old.lints) }
    ensures once { AtMostOnce kit.old.lints kit.new.lints }
{
    let scopes = analyse(alloc, &parsed.tree)?;
    let file = FileView {
        source,
        parsed,
        scopes: &scopes,
        config,
    };
    lint_file(alloc, &file, kit)
}

/// What linting a file gives.
fn lint_file<R: Rule>(alloc: Global, file: &FileView, kit: &mut Kit<R>) -> Result<Found, NoMemory>
    requires whole { IsWhole (file_in file.now) }
    requires fits { FitsKit (meanings_of R.meaning kit.old) (file_in file.now).settings }
    ensures linting { IfOk result (λ found.
        linting_of found ≡ linting_on (meanings_of R.meaning kit.old) (file_in file.now)) }
    ensures inside { IfOk result (LiesWithin (text_bytes (file_in file.now).text)) }
    ensures same { meanings_of R.meaning kit.new ≡ meanings_of R.meaning kit.old }
    ensures heard { IfOk result (λ found. times found.heard ≡ 1) }
    ensures lints { OnOk result (kit.new.lints ≡ more 1 kit.old.lints) }
    ensures once { AtMostOnce kit.old.lints kit.new.lints }
{
    let known = ids_of(alloc, kit)?;
    let ids = known.as_slice();
    let comments = comments_in(file);
    let list = directives(alloc, file.source, comments)?;
    let reports = heard(alloc, file, &list, ids, kit)?;
    let marks = list.marks.as_slice();
    let unused = file.config.unused;
    let all = suppress(alloc, file.source, reports, marks, unused)?;
    sorted(alloc, file.source, ids, comments, all)
}

/// The ids of the kit's rules, in their order.
fn ids_of<R: Rule>(alloc: Global, kit: &Kit<R>) -> Result<Vec<Txt>, NoMemory>
    ensures { IfOk result (λ ids. ids.items ≡ ids_of (meanings_of R.meaning kit.now)) }
{
    let mut ids = Vec::new(alloc);
    for place in 0..kit.count() {
        let id = Txt::new(alloc, kit.id(place))?;
        ids.push(id)?;
    }
    Ok(ids)
}

/// The comments of a file that may change what is set, which lie in its text.
fn comments_in<'a>(file: &'a FileView) -> &'a [Comment]
    requires { IsWhole (file_in file.now) }
    ensures comments { result.now ≡ comments_in (file_in file.now) }
    ensures inside { IsTrue (comments_fit (text_bytes (file_in file.now).text) result.now) }
{
    comments_lie(file);
    if file.config.inline {
        file.parsed.comments.as_slice()
    } else {
        &[]
    }
}

/// The comments of a file lie in its text.
fn comments_lie(file: &FileView)
    requires { IsWhole (file_in file.now) }
    ensures { IsTrue (comments_fit (text_bytes (file_in file.now).text) (file_in file.now).parsed.comments) }
{
    parts_lie();
    tokens_lie();
    let _text = file.source.text();
    let _tokens = file.tokens_from(0);
}

/// What the kit says of a file whose comments say this, where its rules have these ids.
fn heard<R: Rule>(
    alloc: Global,
    file: &FileView,
    list: &DirectiveList,
    ids: &[Txt],
    kit: &mut Kit<R>,
) -> Result<Vec<Report>, NoMemory>
    requires whole { IsWhole (file_in file.now) }
    requires fits { FitsKit (meanings_of R.meaning kit.old) (file_in file.now).settings }
    requires ids { ids.now ≡ ids_of (meanings_of R.meaning kit.old) }
    ensures says { IfOk result (λ reports. reports.items
        ≡ kit_says (meanings_of R.meaning kit.old) (file_under list.now ids.now (file_in file.now))) }
    ensures inside { IfOk result (λ reports.
        IsTrue (reports_fit (text_bytes (file_in file.now).text) reports.items)) }
    ensures fixes { IfOk result (λ reports.
        IsTrue (fixes_fit (text_bytes (file_in file.now).text) reports.items)) }
    ensures same { meanings_of R.meaning kit.new ≡ meanings_of R.meaning kit.old }
    ensures lints { OnOk result (kit.new.lints ≡ more 1 kit.old.lints) }
    ensures once { AtMostOnce kit.old.lints kit.new.lints }
{
    let config = settings_under(alloc, list, ids, file.config)?;
    let laid = FileView {
        source: file.source,
        parsed: file.parsed,
        scopes: file.scopes,
        config: &config,
    };
    listen(alloc, &laid, kit)
}

/// What linting gives of what became of the reports, where the rules have these ids.
fn sorted(
    alloc: Global,
    source: &Source,
    ids: &[Txt],
    comments: &[Comment],
    all: Suppressed,
) -> Result<Found, NoMemory>
    requires { IsTrue (comments_fit (text_bytes source.now) comments.now) }
    ensures stand { IfOk result (λ found. found.stand.items
        ≡ ordered (all.kept ++ (all.unused ++ bad_in ids.now source.now comments.now))) }
    ensures suppressed { IfOk result (λ found. found.suppressed.items ≡ ordered all.dropped) }
    ensures heard { IfOk result (λ found. IsTrue found.heard) }
{
    let mut stand = all.kept.into_vec();
    stand.append(&mut all.unused.into_vec())?;
    add_bad(alloc, source, ids, comments, &mut stand)?;
    Ok(Found {
        stand: in_order(stand)?,
        suppressed: in_order(all.dropped.into_vec())?,
        heard: true,
    })
}
