//! The run: words, plan, work, writes, print, status.
ghost use Rattle.std.specs.Prelude.{◌≡◌, ◌≤◌, ◌+◌, ◌⊎◌, ℕ, List, All, Ok, Err, IfErr, IfOk, OnOk, length, map, string_bytes};
ghost use Rattle.std.specs.Option.{ForSome};
ghost use Rattle.es_files.specs.Outside.{FilesFailed, SinkFailed, with_sent};
ghost use Rattle.es_host.specs.Kits.{NeedsNoOptions, meanings_of};
ghost use Rattle.es_plan.specs.Plans.{plan_of};
ghost use Rattle.es_plan.specs.declared.plan.PlanFault.{PlanFault};
ghost use Rattle.es_run.specs.Courses.{Goes, counts, scene};
ghost use Rattle.es_run.specs.Ends.{world};
ghost use Rattle.es_run.specs.Kits.{HeardAtMost, first_meanings, lints_of, of_rules};
ghost use Rattle.es_run.specs.Runs.{AskNoFixes, DoesAsFresh, HasNotFailed, HoldsAsFresh, IfCannotRead, IfCannotWrite, IsDone, IsRefused, IsReported, IsSettled, IsSilent, IsTold, IsUnlessNoMemory, IsUnread, IsUnwritten, IsWritten, LeavesFiles, ListensAsFresh, ListensAtMostAsFresh, PrintsPart, PrintsSome, SetNoLimit, StepsAsFresh, StepsAtMostAsFresh, WritesPart, config_of, given, most_lintings, most_steps, sinks};
ghost use Rattle.es_run.specs.Statuses.{fault_line};
ghost use Rattle.es_run.specs.Works.{Worked, kit_counts, plan_in};

use crate::configuring::configure;
use crate::ending::end;
use crate::gathering::gather;
use crate::generating::generate;
use crate::linting::lint_all;
use crate::reporting::{Made, Manner, make};
use crate::status::{Fault, Status, StopCause};
use crate::stopping::{no_memory, refuse, tell};
use es_files::{Files, Sink};
use es_host::{Kit, Rule};
use es_plan::{LintPlan, Plan, PlanFault, read_plan};
use es_settings::Mode;
use es_text::{Items, NoMemory, Steps, Txt};
use std::alloc::Global;
use std::sync::ledger::Ledger;

/// What a run is to do with the names under its configuration.
struct Task {
    inline: bool,
    mode: Mode,
    manner: Manner,
    names: Items<Txt>,
}

/// All that a run of a plan does before it writes anything.
fn work<R: Rule, F: Files, L: Ledger>(
    alloc: Global,
    config_name: &Txt,
    task: Task,
    kit: &mut Kit<R>,
    files: &mut F,
    steps: &mut Steps<L>,
) -> Result<Made, Fault>
    requires options { NeedsNoOptions R.meaning kit.old }
    ensures worked { Worked (meanings_of R.meaning kit.old) (plan_in config_name.now task)
        (F.state files.old) (F.state files.new)
        (kit_counts kit.old.lints steps.old) (kit_counts kit.new.lints steps.new) result }
    ensures same { meanings_of R.meaning kit.new ≡ meanings_of R.meaning kit.old }
{
    let Task {
        inline,
        mode,
        manner,
        names,
    } = task;
    let config = match configure(alloc, config_name, kit, files) {
        Ok(config) => config,
        Err(fault) => return Err(fault),
    };
    let parts = match gather(alloc, &config, inline, names, files) {
        Ok(parts) => parts,
        Err(fault) => return Err(fault),
    };
    let Ok(results) = lint_all(alloc, parts, mode, kit, steps) else {
        return Err(Fault::NoMemory);
    };
    match make(alloc, config_name, manner, results) {
        Ok(made) => Ok(made),
        Err(NoMemory) => Err(Fault::NoMemory),
    }
}

/// Runs a plan.
fn run_plan<R: Rule, F: Files, O: Sink, E: Sink, L: Ledger>(
    alloc: Global,
    plan: LintPlan,
    kits: &mut Vec<Kit<R>>,
    files: &mut F,
    out: &mut O,
    err: &mut E,
    steps: &mut Steps<L>,
) -> Status
    requires kits { 1 ≤ length kits.old.items }
    requires options { All (NeedsNoOptions R.meaning) kits.old.items }
    ensures goes { (words : List (List ℕ)) → plan_of words ≡ Ok (Plan.Lint plan) →
        Goes (first_meanings R.meaning kits.old.items) words
        (scene (world (F.state files.old) (O.state out.old) (E.state err.old)) (counts (lints_of kits.old.items) steps.old))
        (scene (world (F.state files.new) (O.state out.new) (E.state err.new)) (counts (lints_of kits.new.items) steps.new))
        result }
    ensures meanings { of_rules R.meaning kits.new.items ≡ of_rules R.meaning kits.old.items }
{
    let LintPlan {
        config,
        json,
        mode,
        quiet,
        max_warnings,
        inline,
        names,
    } = plan;
    let manner = Manner {
        json,
        quiet,
        limit: max_warnings,
    };
    let asked = Task {
        inline,
        mode,
        manner,
        names,
    };
    match work(alloc, &config, asked, &mut kits[0], files, steps) {
        Ok(made) => end(alloc, &config, made, files, out, err),
        Err(Fault::Stop(cause)) => refuse(alloc, &config, cause, err),
        Err(Fault::NoMemory) => no_memory(alloc, err),
    }
}

/// Makes a text of so many lines and lints it, without a configuration.
fn run_text<R: Rule, F: Files, O: Sink, E: Sink, L: Ledger>(
    alloc: Global,
    count: u32,
    kits: &mut Vec<Kit<R>>,
    files: &mut F,
    out: &mut O,
    err: &mut E,
    steps: &mut Steps<L>,
) -> Status
    requires few { count ≤ 10000 }
    requires kits { 1 ≤ length kits.old.items }
    requires options { All (NeedsNoOptions R.meaning) kits.old.items }
    ensures goes { (words : List (List ℕ)) → plan_of words ≡ Ok (Plan.Generate count) →
        Goes (first_meanings R.meaning kits.old.items) words
        (scene (world (F.state files.old) (O.state out.old) (E.state err.old)) (counts (lints_of kits.old.items) steps.old))
        (scene (world (F.state files.new) (O.state out.new) (E.state err.new)) (counts (lints_of kits.new.items) steps.new))
        result }
    ensures meanings { of_rules R.meaning kits.new.items ≡ of_rules R.meaning kits.old.items }
{
    let no_config = match Txt::new(alloc, "") {
        Ok(name) => name,
        Err(NoMemory) => return no_memory(alloc, err),
    };
    match generate(alloc, count, &mut kits[0], steps) {
        Ok(made) => end(alloc, &no_config, made, files, out, err),
        Err(NoMemory) => no_memory(alloc, err),
    }
}

/// Makes of the words what a run does before it writes anything, writes and prints it, or stops.
fn go<R: Rule, F: Files, O: Sink, E: Sink, L: Ledger>(
    alloc: Global,
    words: &[String],
    kits: &mut Vec<Kit<R>>,
    files: &mut F,
    out: &mut O,
    err: &mut E,
    steps: &mut Steps<L>,
) -> Status
    requires kits { 1 ≤ length kits.old.items }
    requires options { All (NeedsNoOptions R.meaning) kits.old.items }
    ensures goes { Goes (first_meanings R.meaning kits.old.items) (map string_bytes words.now)
        (scene (world (F.state files.old) (O.state out.old) (E.state err.old)) (counts (lints_of kits.old.items) steps.old))
        (scene (world (F.state files.new) (O.state out.new) (E.state err.new)) (counts (lints_of kits.new.items) steps.new))
        result }
    ensures meanings { of_rules R.meaning kits.new.items ≡ of_rules R.meaning kits.old.items }
{
    match read_plan(alloc, words) {
        Ok(Plan::Lint(plan)) => run_plan(alloc, plan, kits, files, out, err, steps),
        Ok(Plan::Generate { count }) => run_text(alloc, count, kits, files, out, err, steps),
        Err(PlanFault::BadWords) => {
            tell(
                alloc,
                Status::Stopped(StopCause::BadWords),
                "esl: bad arguments\n",
                err,
            )
        }
        Err(PlanFault::TooMany { names }) => {
            let cause = StopCause::TooMany { names };
            tell(alloc, Status::Stopped(cause), "esl: too many names\n", err)
        }
        Err(PlanFault::NoMemory) => no_memory(alloc, err),
    }
}

/// Runs the program on these words, without its own name, with the rules of the first kit.
///
/// It lints the files that the words name under their configuration: it reads the configuration, decides each name in
/// order and reads those that are linted, each as one step; lints them; makes the report; writes the files whose texts
/// fixes changed, in order; prints the report as one piece, also where it is empty; and tells on `err` where there are
/// more warnings than the words let be and no error. Or it makes a text of so many lines and lints that, as one step.
///
/// A file that isn't linted isn't read, and has one warning. Nothing is written before the whole report is made, and
/// nothing is printed before all is written. A run that stops tells its cause on `err`, in one line. No rule changes
/// its meaning.
pub fn run<R: Rule, F: Files, O: Sink, E: Sink, L: Ledger>(
    alloc: Global,
    words: &[String],
    kits: &mut Vec<Kit<R>>,
    files: &mut F,
    out: &mut O,
    err: &mut E,
    steps: &mut Steps<L>,
) -> Status
    requires kits { 1 ≤ length kits.old.items }
    requires options { All (NeedsNoOptions R.meaning) kits.old.items }

    // A settled status comes with the output and the line of a fresh run, which gives nothing else.
    ensures fresh { IsSettled result → ForSome (F.state files.old).holds (λ held.
        DoesAsFresh (given (first_meanings R.meaning kits.old.items) words.now held) result
        (sinks (O.state out.old) (E.state err.old)) (sinks (O.state out.new) (E.state err.new))) }

    // With it, and where printing alone failed, the files hold what a fresh run leaves.
    ensures writes { IsWritten result → ForSome (F.state files.old).holds (λ held.
        HoldsAsFresh (given (first_meanings R.meaning kits.old.items) words.now held)
        (F.state files.new)) }

    // Without a fault of the outside the status is settled, or it was out of memory.
    ensures complete { (FilesFailed (F.state files.old) (F.state files.new) → ⊥) →
        (SinkFailed (O.state out.old) (O.state out.new) → ⊥) →
        IsSettled result ⊎ (result ≡ Status.NoMemory) }

    // The words alone decide on `BadWords` and `TooMany`.
    ensures bad_words { result ≡ Status.Stopped StopCause.BadWords →
        plan_of (map string_bytes words.now) ≡ Err PlanFault.BadWords }
    ensures refused_words { plan_of (map string_bytes words.now) ≡ Err PlanFault.BadWords →
        IsUnlessNoMemory (Status.Stopped StopCause.BadWords) result }
    ensures too_many { (names : ℕ) → result ≡ Status.Stopped (StopCause.TooMany names) →
        plan_of (map string_bytes words.now) ≡ Err (PlanFault.TooMany names) }
    ensures refused_names { (names : ℕ) → plan_of (map string_bytes words.now) ≡ Err (PlanFault.TooMany names) →
        IsUnlessNoMemory (Status.Stopped (StopCause.TooMany names)) result }

    // A fault of the outside is to blame on a failed call.
    ensures cannot_read { IfCannotRead result (λ name.
        IsUnread (map string_bytes words.now) name (F.state files.old) (F.state files.new)) }
    ensures cannot_write { IfCannotWrite result (λ name.
        IsUnwritten (map string_bytes words.now) name (F.state files.old) (F.state files.new)) }
    ensures half { IfCannotWrite result (λ name. ForSome (F.state files.old).holds (λ held.
        WritesPart (given (first_meanings R.meaning kits.old.items) words.now held) name
        (F.state files.old) (F.state files.new))) }
    ensures cannot_print { result ≡ Status.Stopped StopCause.CannotPrint →
        SinkFailed (O.state out.old) (O.state out.new) }
    ensures part { result ≡ Status.Stopped StopCause.CannotPrint →
        ForSome (F.state files.old).holds (λ held.
        PrintsPart (given (first_meanings R.meaning kits.old.items) words.now held)
        (O.state out.old) (O.state out.new)) }

    // Each cause has its line, and a run that prints its report tells nothing where no limit is set.
    ensures told { (cause : StopCause) → result ≡ Status.Stopped cause →
        IsTold (E.state err.old) (fault_line (config_of (map string_bytes words.now)) cause) (E.state err.new) }
    ensures quiet { IsDone result → SetNoLimit (map string_bytes words.now) →
        E.state err.new ≡ E.state err.old }

    // What a run leaves of the output and of the counts of failures.
    ensures silent { IsSilent result → O.state out.new ≡ O.state out.old }
    ensures no_failure { IsDone result →
        HasNotFailed (F.state files.old) (F.state files.new) }
    ensures all_printed { IsDone result → (O.state out.new).faults ≡ (O.state out.old).faults }
    ensures some_printed { result ≡ Status.NoMemory → ForSome (F.state files.old).holds (λ held.
        PrintsSome (given (first_meanings R.meaning kits.old.items) words.now held)
        (O.state out.old) (O.state out.new)) }

    // What it leaves of the files: only `--fix` writes, and only what a fresh run writes.
    ensures reads { AskNoFixes (map string_bytes words.now) →
        (F.state files.new).holds ≡ (F.state files.old).holds }
    ensures refused { IsRefused result → (F.state files.new).holds ≡ (F.state files.old).holds }
    ensures left { result ≡ Status.NoMemory → ForSome (F.state files.old).holds (λ held.
        LeavesFiles (given (first_meanings R.meaning kits.old.items) words.now held)
        (F.state files.old) (F.state files.new)) }

    // A run changes no meaning of a rule of the kits.
    ensures meanings { of_rules R.meaning kits.new.items ≡ of_rules R.meaning kits.old.items }

    // The first kit listens to each text that is parsed, and no other ever listens.
    ensures listens { IsReported result → ForSome (F.state files.old).holds (λ held.
        ListensAsFresh (given (first_meanings R.meaning kits.old.items) words.now held)
        (lints_of kits.old.items) (lints_of kits.new.items)) }
    ensures rests { IsRefused result → lints_of kits.new.items ≡ lints_of kits.old.items }
    ensures lintings { ForSome (F.state files.old).holds (λ held.
        ListensAtMostAsFresh (given (first_meanings R.meaning kits.old.items) words.now held)
        (lints_of kits.old.items) (lints_of kits.new.items)) }
    ensures most { HeardAtMost (most_lintings (map string_bytes words.now))
        (lints_of kits.old.items) (lints_of kits.new.items) }

    // Linting a file is one step, and a run that doesn't come to that takes none.
    ensures ticked { IsReported result → ForSome (F.state files.old).holds (λ held.
        StepsAsFresh (given (first_meanings R.meaning kits.old.items) words.now held)
        steps.old steps.new) }
    ensures no_tick { IsRefused result → steps.new ≡ steps.old }
    ensures ticks { ForSome (F.state files.old).holds (λ held.
        StepsAtMostAsFresh (given (first_meanings R.meaning kits.old.items) words.now held)
        steps.old steps.new) }
    ensures few_ticks { steps.new ≤ steps.old + most_steps (map string_bytes words.now) }
{
    go(alloc, words, kits, files, out, err, steps)
}
