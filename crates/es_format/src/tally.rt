//! How many messages of which kind there are.

ghost use Rattle.std.specs.Prelude.{◌≡◌, ◌++◌, IfOk, OnOk, map};
ghost use Rattle.es_format.specs.Stylish.{all_messages, is_error};
ghost use Rattle.es_format.specs.Tallies.{tally_of};

use es_messages::{FileResult, Message};
use es_text::{NoMemory, Severity, Txt};
use std::alloc::Global;

/// What counts of a message: whether it is an error, else a warning, and whether it has a fix.
#[derive(Clone, Copy)]
pub(crate) struct Tally {
    pub(crate) is_error: bool,
    pub(crate) has_fix: bool,
}

/// The tallies of all messages of all files.
pub(crate) fn tallies(alloc: Global, results: &[(Txt, FileResult)]) -> Result<Vec<Tally>, NoMemory>
    ensures { IfOk result (λ tallies. tallies.items ≡ map tally_of (all_messages results.now)) }
{
    let mut tallies = Vec::new(alloc);
    for named in results {
        add(&mut tallies, named.1.messages.as_slice())?;
    }
    Ok(tallies)
}

/// Puts the tallies of the messages behind those that are there.
fn add(tallies: &mut Vec<Tally>, messages: &[Message]) -> Result<(), NoMemory>
    ensures { OnOk result (tallies.new.items ≡ tallies.old.items ++ map tally_of messages.now) }
{
    for message in messages {
        tallies.push(tally_of(message))?;
    }
    Ok(())
}

fn tally_of(message: &Message) -> Tally
    ensures { result ≡ tally_of message.now }
{
    Tally {
        is_error: is_error(message.severity),
        has_fix: message.fix.is_some(),
    }
}

/// Whether it is an error and no warning.
pub(crate) fn is_error(severity: Severity) -> bool
    ensures { result ≡ is_error severity }
{
    match severity {
        Severity::Error => true,
        Severity::Warn => false,
    }
}
