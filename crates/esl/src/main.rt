//! The program `esl`: runs on its arguments with the rules that it boxes here, and ends with the
//! status of the run.
#![tactic(auto)]

ghost use Rattle.std.specs.Prelude.{◌≡◌, ◌≢◌, ◌<◌, ◌^◌, All, [], length};
ghost use Rattle.std.specs.IoError.{error_kind};
ghost use Rattle.es_settings.specs.declared.verdict.Verdict.TheVariants.{Fine};

use es_files::{RealErr, RealFiles, RealOut};
use es_host::{EachFile, EachNode, Kit, Rule};
use es_rules_plain::{
    DefaultCaseLast, EolLast, Eqeqeq, NoCondAssign, NoDebugger, NoDuplicateCase, NoEmpty,
    NoExtraSemi, NoRestrictedSyntax, NoSparseArrays, NoTrailingSpaces, NoUnsafeFinally,
    NoUnsafeNegation, Semi, ValidTypeof,
};
use es_rules_scope::{NoConstAssign, NoUndef, NoUnusedLabels, NoUnusedVars};
use es_run::{Status, StopCause};
use es_text::{NoMemory, Steps};
use std::io::ErrorKind;
use std::marker::Brand;
use std::process::ExitCode;
use std::sync::ledger::{Blank, Ledger};
use std::{env, io};

#[cfg(test)]
mod config_tests;
#[cfg(test)]
mod draws;
#[cfg(test)]
mod fix_tests;
#[cfg(test)]
mod project_tests;
#[cfg(test)]
mod run_cases;
#[cfg(test)]
mod tests;
#[cfg(test)]
mod text_cases;
#[cfg(test)]
mod watch;

fn main(rt: HostRuntime) -> ExitCode {
    let status = match arguments(&rt) {
        Ok(arguments) => match lint(&rt, arguments.as_slice()) {
            Ok(status) => status,
            Err(NoMemory) => no_memory(&rt),
        },
        Err(error) => refuse(&rt, &error),
    };
    ExitCode::from(es_run::status_code(&status))
}

/// Boxes the rules, in the order in which reports of one place are told, and runs.
fn lint(rt: &HostRuntime, arguments: &[String]) -> Result<Status, NoMemory> {
    let alloc = rt.alloc();
    let mut rules: Vec<Box<dyn Rule + Send>> = Vec::new(alloc);
    rules.push(Box::new(alloc, EachNode::new(alloc, Semi))?)?;
    rules.push(Box::new(alloc, EachNode::new(alloc, NoExtraSemi))?)?;
    rules.push(Box::new(alloc, EachFile::new(EolLast))?)?;
    rules.push(Box::new(alloc, EachFile::new(NoTrailingSpaces))?)?;
    rules.push(Box::new(alloc, EachNode::new(alloc, NoDebugger))?)?;
    rules.push(Box::new(alloc, EachNode::new(alloc, NoEmpty))?)?;
    rules.push(Box::new(alloc, EachNode::new(alloc, Eqeqeq::new()))?)?;
    rules.push(Box::new(alloc, EachNode::new(alloc, NoDuplicateCase))?)?;
    rules.push(Box::new(alloc, EachNode::new(alloc, NoCondAssign))?)?;
    rules.push(Box::new(alloc, EachNode::new(alloc, NoUnsafeFinally))?)?;
    rules.push(Box::new(alloc, EachNode::new(alloc, NoUnsafeNegation))?)?;
    rules.push(Box::new(alloc, EachNode::new(alloc, ValidTypeof))?)?;
    rules.push(Box::new(alloc, EachNode::new(alloc, NoSparseArrays))?)?;
    rules.push(Box::new(alloc, EachNode::new(alloc, DefaultCaseLast))?)?;
    rules.push(Box::new(alloc, EachNode::new(alloc, NoRestrictedSyntax::new(alloc)))?)?;
    rules.push(Box::new(alloc, EachFile::new(NoUndef))?)?;
    rules.push(Box::new(alloc, EachFile::new(NoConstAssign))?)?;
    rules.push(Box::new(alloc, EachFile::new(NoUnusedVars))?)?;
    rules.push(Box::new(alloc, EachFile::new(NoUnusedLabels))?)?;
    run_over(rt, arguments, rules)
}

/// Runs the rules, on a count of steps of its own.
fn run_over<R: Rule>(
    rt: &HostRuntime,
    arguments: &[String],
    rules: Vec<R>,
) -> Result<Status, NoMemory>
    requires few { length rules.items < 2 ^ 32 }
    requires options { All (λ rule. (R.meaning rule).verdict [] ≡ Fine) rules.items }
{
    counted_run::<R, Brand>(rt, arguments, rules, Blank::new(1))
}

/// Makes the kit of these rules, the files and the streams, and runs.
fn counted_run<R: Rule, L: Ledger>(
    rt: &HostRuntime,
    arguments: &[String],
    rules: Vec<R>,
    blank: Blank,
) -> Result<Status, NoMemory>
    requires name { blank.name ≡ L.name }
    requires parts { blank.parts ≡ L.parts }
    requires some { 0 < blank.parts }
    requires few { length rules.items < 2 ^ 32 }
    requires options { All (λ rule. (R.meaning rule).verdict [] ≡ Fine) rules.items }
{
    let alloc = rt.alloc();
    let mut kits = Vec::new(alloc);
    kits.push(Kit::new(rules))?;
    let mut files = RealFiles::new(rt);
    let mut out = RealOut::new(rt);
    let mut err = RealErr::new(rt.stderr());
    let mut steps = Steps::<L>::new(blank);
    Ok(es_run::run(
        alloc, arguments, &mut kits, &mut files, &mut out, &mut err, &mut steps,
    ))
}

/// The arguments, without the program's own name.
fn arguments(rt: &HostRuntime) -> io::Result<Vec<String>> {
    let arguments = env::args(rt)?.skip(1).collect(rt.alloc())?;
    Ok(arguments)
}

/// Tells why the arguments couldn't be had: out of memory, or one isn't UTF-8, as each name is.
fn refuse(rt: &HostRuntime, error: &io::Error) -> Status
    ensures no_memory { error_kind error.now ≡ ErrorKind.OutOfMemory → result ≡ Status.NoMemory }
    ensures bad_words { error_kind error.now ≢ ErrorKind.OutOfMemory →
        result ≡ Status.Stopped StopCause.BadWords }
{
    if error.kind() == ErrorKind::OutOfMemory {
        no_memory(rt)
    } else {
        // A failed write changes nothing else.
        let _ = eprintln!(rt; "esl: bad arguments");
        Status::Stopped(StopCause::BadWords)
    }
}

/// Tells that the program is out of memory, where that can be told.
fn no_memory(rt: &HostRuntime) -> Status
    ensures { result ≡ Status.NoMemory }
{
    let _ = eprintln!(rt; "esl: no memory");
    Status::NoMemory
}
