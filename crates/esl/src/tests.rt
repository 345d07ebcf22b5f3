ghost use Rattle.std.specs.Prelude.{◌≡◌, ◌≤◌, ◌<◌, ◌^◌, All, [], length, IfOk};
ghost use Rattle.es_settings.specs.declared.verdict.Verdict.TheVariants.{Fine};
ghost use Rattle.es_host.specs.Kits.{NeedsNoOptions};

use crate::draws::Draws;
use crate::watch::{WatchEmpty, WatchNames};
use es_files::{MemoryFiles, MemorySink, Sink, SinkFault, SureSink};
use es_host::{EachNode, Kit, Rule};
use es_rules_plain::NoDebugger;
use es_run::{Status, run, status_code};
use es_text::Steps;
use std::alloc::Global;
use std::marker::Brand;
use std::process::Abort;
use std::sync::Arc;
use std::sync::atomic::{AtomicU64, Ordering};
use std::sync::ledger::{Blank, Ledger};
use std::test::Fail;

/// A run over files in memory: the status, what it printed, what it told, and how often its kit
/// listened.
#[derive(Drop)]
pub(crate) struct Ran {
    status: Status,
    out: MemorySink,
    err: MemorySink,
    lints: u64,
}

/// The arguments, each in memory of its own.
pub(crate) fn arguments_of(alloc: Global, words: &[&str]) -> Result<Vec<String>, Fail> {
    let mut arguments = Vec::new(alloc);
    for word in words {
        arguments.push(String::from_str(alloc, word)?)?;
    }
    Ok(arguments)
}

/// What a run with these arguments answers, on a count of steps of its own.
fn counted_run<R: Rule, O: Sink, E: Sink, L: Ledger>(
    alloc: Global,
    arguments: &[String],
    kits: &mut Vec<Kit<R>>,
    files: &mut MemoryFiles,
    out: &mut O,
    err: &mut E,
    blank: Blank,
) -> Status
    requires name { blank.name ≡ L.name }
    requires parts { blank.parts ≡ L.parts }
    requires some { 0 < blank.parts }
    requires kits { 1 ≤ length kits.old.items }
    requires options { All (NeedsNoOptions R.meaning) kits.old.items }
    ensures kits { length kits.new.items ≡ length kits.old.items }
    ensures options { All (NeedsNoOptions R.meaning) kits.new.items }
{
    let mut steps = Steps::<L>::new(blank);
    run(alloc, arguments, kits, files, out, err, &mut steps)
}

/// What a run with these arguments answers.
pub(crate) fn status_of<R: Rule, O: Sink, E: Sink>(
    alloc: Global,
    words: &[&str],
    kits: &mut Vec<Kit<R>>,
    files: &mut MemoryFiles,
    out: &mut O,
    err: &mut E,
) -> Result<Status, Fail>
    requires kits { 1 ≤ length kits.old.items }
    requires options { All (NeedsNoOptions R.meaning) kits.old.items }
    ensures kits { length kits.new.items ≡ length kits.old.items }
    ensures options { All (NeedsNoOptions R.meaning) kits.new.items }
{
    let arguments = arguments_of(alloc, words)?;
    let blank = Blank::new(1);
    Ok(counted_run::<R, O, E, Brand>(alloc, arguments.as_slice(), kits, files, out, err, blank))
}

/// Runs the rules with these arguments.
pub(crate) fn run_over<R: Rule>(
    alloc: Global,
    words: &[&str],
    rules: Vec<R>,
    files: &mut MemoryFiles,
) -> Result<Ran, Fail>
    requires few { length rules.items < 2 ^ 32 }
    requires options { All (λ rule. (R.meaning rule).verdict [] ≡ Fine) rules.items }
{
    let mut kits = Vec::new(alloc);
    kits.push(Kit::new(rules))?;
    let mut out = MemorySink::new(alloc)?;
    let mut err = MemorySink::new(alloc)?;
    let status = status_of(alloc, words, &mut kits, files, &mut out, &mut err)?;
    let lints = kits[0].lints();
    Ok(Ran {
        status,
        out,
        err,
        lints,
    })
}

/// The rule of the program.
fn plain_rules(alloc: Global) -> Result<Vec<EachNode<NoDebugger>>, Fail>
    ensures { IfOk result (λ rules. length rules.items ≡ 1) }
{
    let mut rules = Vec::new(alloc);
    rules.push(EachNode::new(alloc, NoDebugger))?;
    Ok(rules)
}

/// Files in memory: a configuration, and this one, which holds the text.
pub(crate) fn files_of(
    alloc: Global,
    config: &str,
    name: &str,
    text: &[u8],
) -> Result<MemoryFiles, Fail> {
    let mut files = MemoryFiles::new(alloc)?;
    files.hold(alloc, "eslint.config.json", config.as_bytes())?;
    files.hold(alloc, name, text)?;
    Ok(files)
}

/// Asserts that the run ended with this status, printed this text, and told this line.
pub(crate) fn expect(rt: &impl Abort, ran: &Ran, status: u8, out: &str, err: &str) {
    assert_eq!(rt; status_code(&ran.status), status);
    assert_eq!(rt; ran.out.got(), out.as_bytes());
    assert_eq!(rt; ran.err.got(), err.as_bytes());
}

static TWO_RULES: &str = "
é.js
  1:1   error  name   name
  1:3   error  empty  empty
  10:2  error  name   name

✖ 3 problems (3 errors, 0 warnings)
";

/// Two rules, the first of which says the place of each empty statement, the second that of each
/// name. The columns are as wide as their widest text.
#[test]
fn reports_of_two_rules_stand_by_their_places(rt: HostRuntime) -> Result<(), Fail> {
    let alloc = rt.alloc();
    let mut rules: Vec<Box<dyn Rule + Send>> = Vec::new(alloc);
    rules.push(Box::new(alloc, EachNode::new(alloc, WatchEmpty))?)?;
    rules.push(Box::new(alloc, EachNode::new(alloc, WatchNames { refusals: 0 }))?)?;
    let mut files = files_of(
        alloc,
        "{\"rules\": {\"empty\": 2, \"name\": 2}}",
        "é.js",
        b"a;;\n\n\n\n\n\n\n\n\n b",
    )?;
    let ran = run_over(alloc, &["é.js"], rules, &mut files)?;
    expect(&rt, &ran, 1, TWO_RULES, "");
    Ok(())
}

/// A rule that is out of memory stops the run, and the same kit listens again.
#[test]
fn a_kit_listens_again(rt: HostRuntime) -> Result<(), Fail> {
    let alloc = rt.alloc();
    let mut rules: Vec<Box<dyn Rule + Send>> = Vec::new(alloc);
    rules.push(Box::new(alloc, EachNode::new(alloc, WatchNames { refusals: 1 }))?)?;
    let mut kits = Vec::new(alloc);
    kits.push(Kit::new(rules))?;
    let mut files = files_of(alloc, "{\"rules\": {\"name\": 2}}", "a.js", b"a;\n")?;
    let (mut out, mut err) = (SureSink::new(alloc)?, SureSink::new(alloc)?);
    let first = status_of(alloc, &["a.js"], &mut kits, &mut files, &mut out, &mut err)?;
    let second = status_of(alloc, &["a.js"], &mut kits, &mut files, &mut out, &mut err)?;
    assert_eq!(rt; status_code(&first), 3);
    assert_eq!(rt; status_code(&second), 1);
    assert_eq!(rt; kits[0].lints(), 2);
    Ok(())
}

/// Each event is told to the first rule and then to the second, before the next one: of the numbers that
/// they draw, the first has the even ones and the second the odd ones. The tree has six nodes.
#[test]
fn events_are_told_one_by_one(rt: HostRuntime) -> Result<(), Fail> {
    let alloc = rt.alloc();
    let next = Arc::new(alloc, AtomicU64::new(0))?;
    let wrong = Arc::new(alloc, AtomicU64::new(0))?;
    let mut rules = Vec::new(alloc);
    rules.push(Draws::new(alloc, &next, false, &wrong)?)?;
    rules.push(Draws::new(alloc, &next, true, &wrong)?)?;
    let mut files = files_of(
        alloc,
        "{\"rules\": {\"evens\": 2, \"odds\": 2}}",
        "a.js",
        b"a\n++b\n",
    )?;
    let ran = run_over(alloc, &["a.js"], rules, &mut files)?;
    expect(&rt, &ran, 0, "", "");
    assert_eq!(rt; next.load(Ordering::SeqCst), 24);
    assert_eq!(rt; wrong.load(Ordering::SeqCst), 0);
    Ok(())
}

/// A sink that is always out of memory.
#[derive(Drop)]
struct Poor;

impl Sink for Poor {
    ghost use Rattle.std.specs.Prelude.{None};

    ghost state = { λ _. record { got = None; faults = 0 } };

    fn write(&mut self, _alloc: Global, _bytes: &[u8]) -> Result<(), SinkFault> {
        Err(SinkFault::NoMemory)
    }
}

#[test]
fn a_run_tells_that_it_is_out_of_memory(rt: HostRuntime) -> Result<(), Fail> {
    let mut files = files_of(rt.alloc(), "[]", "a.js", b"a;\n")?;
    let mut kits = Vec::new(rt.alloc());
    kits.push(Kit::new(plain_rules(rt.alloc())?))?;
    let (mut out, mut err) = (Poor, MemorySink::new(rt.alloc())?);
    let status = status_of(
        rt.alloc(),
        &["a.js"],
        &mut kits,
        &mut files,
        &mut out,
        &mut err,
    )?;
    assert_eq!(rt; status_code(&status), 3);
    assert_eq!(rt; err.got(), b"esl: no memory\n".as_slice());
    Ok(())
}

/// The names are counted as they are given.
#[test]
fn too_many_names_stop_a_run(rt: HostRuntime) -> Result<(), Fail> {
    let alloc = rt.alloc();
    let mut names = Vec::new(alloc);
    names.resize(10_001, "a.js")?;
    let mut files = files_of(alloc, "[]", "a.js", b"a;\n")?;
    let rules = plain_rules(alloc)?;
    let ran = run_over(alloc, names.as_slice(), rules, &mut files)?;
    expect(&rt, &ran, 2, "", "esl: too many names\n");
    assert_eq!(rt; ran.lints, 0);
    Ok(())
}

/// What the program does where no file has the configuration's name.
#[test]
fn a_missing_configuration_stops_the_program(rt: HostRuntime) -> Result<(), Fail> {
    let arguments = arguments_of(rt.alloc(), &["-c", "missing/a.json", "a.js"])?;
    let status = crate::lint(&rt, arguments.as_slice())?;
    assert_eq!(rt; status_code(&status), 2);
    Ok(())
}
