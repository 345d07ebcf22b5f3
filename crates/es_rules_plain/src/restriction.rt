//! What the options of `no-restricted-syntax` restrict.
ghost use Rattle.std.specs.Prelude.{◌≡◌, false, Option, IfOk, map, option_map};
ghost use Rattle.std.specs.Str.{chars};
ghost use Rattle.serde_json.specs.Find.{as_str};
ghost use Rattle.serde_json.specs.View.{view};
ghost use Rattle.serde_json.specs.Written.{has_float};
ghost use Rattle.es_settings.specs.declared.verdict.Verdict.TheVariants.{Fine};
ghost use Rattle.es_settings.specs.Settings.{have_float, options_of};
ghost use Rattle.es_rules_plain.specs.Restrictions.{by_count, message_in, restricted_by, restriction_in, restrictions};
ghost use Rattle.es_rules_plain.specs.Restrictions.{text_at, told_usually, usual, verdict_of, verdict_on};
ghost use Rattle.es_rules_plain.specs.SpelledSelectors.{spelled};

use es_selectors::{Selector, SelectorFault, Spelling, read};
use es_settings::Verdict;
use es_text::{Items, NoMemory, Txt};
use serde_json::Value;
use std::alloc::Global;

/// A selector whose nodes aren't allowed.
#[derive(Drop)]
pub struct Restriction {
    /// The selector, as the option gives it.
    pub selector: Txt,
    /// What is said of a node that it matches.
    pub text: Txt,
}

/// What the option restricts, or `None` where it isn't of a shape that is taken.
#[tactic(auto, using(crate::proofs::RestrictionsLemmas::count_entries))]
pub fn restriction_in(alloc: Global, option: &Value) -> Result<Option<Restriction>, NoMemory>
    ensures { IfOk result (λ found. found ≡ restriction_in (view option.now)) }
{
    if let Some(selector) = option.as_str() {
        return Ok(Some(usual(alloc, selector)?));
    }
    let Some(members) = option.as_object() else {
        return Ok(None);
    };
    match text_at(option, "selector") {
        Some(selector) => by_count(alloc, option, selector, members.len()),
        None => Ok(None),
    }
}

/// What an object with so many members restricts that has this selector.
fn by_count(
    alloc: Global,
    option: &Value,
    selector: &str,
    count: usize,
) -> Result<Option<Restriction>, NoMemory>
    ensures { IfOk result (λ found. found ≡ by_count (view option.now) selector.now count) }
{
    match count {
        1 => Ok(Some(usual(alloc, selector)?)),
        2 => message_in(alloc, selector, text_at(option, "message")),
        _ => Ok(None),
    }
}

/// The text that the object has under this name.
fn text_at<'a>(option: &'a Value, name: &str) -> Option<&'a str>
    ensures { option_map (λ text. text.now) result ≡ text_at name.now (view option.now) }
{
    match option.get(name) {
        Some(member) => member.as_str(),
        None => None,
    }
}

/// The restriction of this selector, if there is a message.
fn message_in(
    alloc: Global,
    selector: &str,
    message: Option<&str>,
) -> Result<Option<Restriction>, NoMemory>
    ensures { IfOk result (λ found. found
        ≡ message_in selector.now (option_map (λ text. text.now) message.entry)) }
{
    match message {
        None => Ok(None),
        Some(message) => Ok(Some(Restriction {
            selector: Txt::new(alloc, selector)?,
            text: Txt::new(alloc, message)?,
        })),
    }
}

/// The restriction of this selector, without a message of its own.
fn usual(alloc: Global, selector: &str) -> Result<Restriction, NoMemory>
    ensures { IfOk result (λ made. made ≡ usual selector.now) }
{
    Ok(Restriction {
        selector: Txt::new(alloc, selector)?,
        text: told_usually(alloc, selector)?,
    })
}

/// What is said where the option has no message.
fn told_usually(alloc: Global, selector: &str) -> Result<Txt, NoMemory>
    ensures { IfOk result (λ text. text ≡ told_usually (chars selector.now)) }
{
    let mut text = String::from_str(alloc, "Using '")?;
    text.push_str(selector)?;
    text.push_str("' is not allowed.")?;
    Txt::new(alloc, text.as_str())
}

/// The selector that the text spells, or `None` where it spells none.
pub fn spelled(alloc: Global, text: &str) -> Result<Option<Selector>, NoMemory>
    ensures { IfOk result (λ found. found ≡ spelled (chars text.now)) }
{
    match read(alloc, text) {
        Ok(selector) => Ok(Some(selector)),
        Err(SelectorFault::Unread) => Ok(None),
        Err(SelectorFault::NoMemory) => Err(NoMemory),
    }
}

/// Whether the option is taken.
#[tactic(auto, using(crate::proofs::FloatsLemmas::no_float))]
fn verdict_of(alloc: Global, option: &Value) -> Result<Verdict, NoMemory>
    ensures verdict { IfOk result (λ verdict. verdict ≡ verdict_of (view option.now)) }
    ensures floats { IfOk result (λ verdict. verdict ≡ Fine → has_float (view option.now) ≡ false) }
{
    let Some(restriction) = restriction_in(alloc, option)? else {
        return Ok(Verdict::BadOption);
    };
    match spelled(alloc, restriction.selector.as_str())? {
        Some(_) => Ok(Verdict::Fine),
        None => Ok(Verdict::BadSelector),
    }
}

/// What the first option that isn't taken is told, or `Fine` where all are taken.
pub fn verdict_on(alloc: Global, options: &[Value]) -> Result<Verdict, NoMemory>
    ensures verdict { IfOk result (λ verdict. verdict ≡ verdict_on (options_of options.now)) }
    ensures floats { IfOk result (λ verdict. verdict ≡ Fine → have_float (options_of options.now) ≡ false) }
{
    for option in options {
        let verdict = verdict_of(alloc, option)?;
        if verdict != Verdict::Fine {
            return Ok(verdict);
        }
    }
    Ok(Verdict::Fine)
}

/// What the options restrict, one after the other.
pub fn restrictions_in(alloc: Global, options: &[Value]) -> Result<Vec<Restriction>, NoMemory>
    ensures { IfOk result (λ found. found.items ≡ restrictions (options_of options.now)) }
{
    let mut found = Vec::new(alloc);
    for option in options {
        if let Some(restriction) = restriction_in(alloc, option)? {
            found.push(restriction)?;
        }
    }
    Ok(found)
}

/// The selectors of the restrictions.
pub fn selectors_of(alloc: Global, restrictions: &[Restriction]) -> Result<Vec<Selector>, NoMemory>
    ensures { IfOk result (λ selectors. selectors.items ≡ map restricted_by restrictions.now) }
{
    let mut selectors = Vec::new(alloc);
    for restriction in restrictions {
        selectors.push(restricted_by(alloc, restriction)?)?;
    }
    Ok(selectors)
}

/// The selector of the restriction; where it isn't read, one that matches nothing.
fn restricted_by(alloc: Global, restriction: &Restriction) -> Result<Selector, NoMemory>
    ensures { IfOk result (λ selector. selector ≡ restricted_by restriction.now) }
{
    match spelled(alloc, restriction.selector.as_str())? {
        Some(selector) => Ok(selector),
        None => Ok(Selector::new(Spelling {
            chains: Items::new(alloc),
            exit: false,
        })),
    }
}
