//! The command, as `clap` reads it.
ghost use Rattle.std.specs.Prelude.{◌≡◌, IfOk, false};
ghost use Rattle.clap.specs.Simple.{app_of};
ghost use Rattle.clap.specs.Walk.{rule_of};
ghost use Rattle.es_plan.specs.Command.{bare, command, files_rule, flag_named, option_named, with_letter};

use clap::{Arg, ArgAction, Command};
use std::alloc::{AllocError, Global};

/// An option with a value.
fn option<'a>(alloc: Global, name: &'a str) -> Arg<'a>
    ensures rule { rule_of result ≡ option_named name.entry.now }
    ensures local { result.global ≡ false }
{
    Arg::new(alloc, name).long(name).action(ArgAction::Set)
}

/// An option without a value.
fn flag<'a>(alloc: Global, name: &'a str) -> Arg<'a>
    ensures rule { rule_of result ≡ flag_named name.entry.now }
    ensures local { result.global ≡ false }
{
    Arg::new(alloc, name).long(name).action(ArgAction::SetTrue)
}

/// An option with a value, and a letter that stands for its name.
fn lettered<'a>(alloc: Global, name: &'a str, letter: char) -> Arg<'a>
    ensures rule { rule_of result ≡ with_letter letter (option_named name.entry.now) }
    ensures local { result.global ≡ false }
{
    Arg::new(alloc, name)
        .short(letter)
        .long(name)
        .action(ArgAction::Set)
}

/// The words that are no options.
fn files<'a>(alloc: Global) -> Arg<'a>
    ensures rule { rule_of result ≡ files_rule }
    ensures local { result.global ≡ false }
{
    Arg::new(alloc, "file")
        .action(ArgAction::Append)
        .num_args(0..)
}

/// The command without its options.
fn bare<'a>(alloc: Global) -> Command<'a>
    ensures { app_of result ≡ bare }
{
    Command::new(alloc, "esl").no_binary_name(true)
}

/// The command with all that it takes. Out of memory it fails.
pub fn command<'a>(alloc: Global) -> Result<Command<'a>, AllocError>
    ensures { IfOk result (λ made. app_of made ≡ command) }
{
    bare(alloc)
        .arg(lettered(alloc, "config", 'c'))?
        .arg(lettered(alloc, "format", 'f'))?
        .arg(flag(alloc, "fix"))?
        .arg(flag(alloc, "quiet"))?
        .arg(option(alloc, "max-warnings"))?
        .arg(flag(alloc, "no-inline-config"))?
        .arg(option(alloc, "generate"))?
        .arg(files(alloc))
}
