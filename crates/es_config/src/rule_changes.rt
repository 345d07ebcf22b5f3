//! What an entry sets for rules.
#![tactic(auto, using(crate::proofs::WalksLemmas::fault_here))]

ghost use Rattle.std.specs.Prelude.{◌≡◌, ◌<◌, All, length, IfErr, IfOk, map};
ghost use Rattle.serde_json.specs.View.{items_view, members_view, view};
ghost use Rattle.es_config.specs.Entries.{change_of};
ghost use Rattle.es_config.specs.Reading.{IsFine, bare_change, change_at, change_in, change_to, full_change, known};
ghost use Rattle.es_settings.specs.Settings.{options_of};
ghost use Rattle.es_config.specs.Walks.{IsFault, each_member, good, in_object};

use crate::entry::RuleChange;
use crate::fault::{ConfigFault, FaultKind};
use crate::pointer::{here, under_key};
use crate::shapes::severity_of;
use es_settings::{Known, Verdict, copy_options};
use es_text::Items;
use serde_json::{Map, Value};
use std::alloc::Global;

/// What the members of a value set for rules.
pub fn changes_of<K: Known>(
    alloc: Global,
    rules: &K,
    value: &Value,
) -> Result<Items<RuleChange>, ConfigFault>
    ensures value { IfOk result (λ changes.
        in_object (each_member (change_at (known (K.ids rules.now) (K.verdict rules.now))))
        (view value.now)
        ≡ good (map change_of changes)) }
    ensures bad { IfErr result (IsFault
        (in_object (each_member (change_at (known (K.ids rules.now) (K.verdict rules.now))))
        (view value.now))) }
    ensures fine { IfOk result (λ changes. All
        (IsFine (known (K.ids rules.now) (K.verdict rules.now))) (map change_of changes)) }
{
    match value {
        Value::Object(members) => changes_in(alloc, rules, members),
        _ => Err(here(alloc, FaultKind::WrongShape)),
    }
}

fn changes_in<K: Known>(
    alloc: Global,
    rules: &K,
    members: &Map<String, Value>,
) -> Result<Items<RuleChange>, ConfigFault>
    ensures value { IfOk result (λ changes.
        each_member (change_at (known (K.ids rules.now) (K.verdict rules.now)))
        (members_view members.now.entries)
        ≡ good (map change_of changes)) }
    ensures bad { IfErr result (IsFault
        (each_member (change_at (known (K.ids rules.now) (K.verdict rules.now)))
        (members_view members.now.entries))) }
    ensures fine { IfOk result (λ changes. All
        (IsFine (known (K.ids rules.now) (K.verdict rules.now))) (map change_of changes)) }
{
    let mut changes = Items::new(alloc);
    for (key, value) in members.iter() {
        match change_at(alloc, rules, key.as_str(), value) {
            Ok(change) => changes.push(change)?,
            Err(fault) => return Err(under_key(alloc, key.as_str(), fault)),
        }
    }
    Ok(changes)
}

/// What the value sets for the rule of this id.
fn change_at<K: Known>(
    alloc: Global,
    rules: &K,
    id: &str,
    value: &Value,
) -> Result<RuleChange, ConfigFault>
    ensures value { IfOk result (λ change.
        change_at (known (K.ids rules.now) (K.verdict rules.now)) id.now (view value.now)
        ≡ good (change_of change)) }
    ensures bad { IfErr result (IsFault
        (change_at (known (K.ids rules.now) (K.verdict rules.now)) id.now (view value.now))) }
    ensures fine { IfOk result (λ change.
        IsFine (known (K.ids rules.now) (K.verdict rules.now)) (change_of change)) }
{
    match rules.place(id) {
        None => Err(here(alloc, FaultKind::UnknownRule)),
        Some(place) => change_to(alloc, rules, place, value),
    }
}

fn change_to<K: Known>(
    alloc: Global,
    rules: &K,
    place: u32,
    value: &Value,
) -> Result<RuleChange, ConfigFault>
    requires { place < length (K.ids rules.now) }
    ensures value { IfOk result (λ change.
        change_to (known (K.ids rules.now) (K.verdict rules.now)) (view value.now) place
        ≡ good (change_of change)) }
    ensures bad { IfErr result (IsFault
        (change_to (known (K.ids rules.now) (K.verdict rules.now)) (view value.now) place)) }
    ensures fine { IfOk result (λ change.
        IsFine (known (K.ids rules.now) (K.verdict rules.now)) (change_of change)) }
{
    match value {
        Value::Array(values) => change_in(alloc, rules, place, values.as_slice()),
        _ => bare_change(alloc, place, value),
    }
}

fn change_in<K: Known>(
    alloc: Global,
    rules: &K,
    place: u32,
    values: &[Value],
) -> Result<RuleChange, ConfigFault>
    requires { place < length (K.ids rules.now) }
    ensures value { IfOk result (λ change.
        change_in (known (K.ids rules.now) (K.verdict rules.now)) place (items_view values.now)
        ≡ good (change_of change)) }
    ensures bad { IfErr result (IsFault
        (change_in (known (K.ids rules.now) (K.verdict rules.now)) place (items_view values.now))) }
    ensures fine { IfOk result (λ change.
        IsFine (known (K.ids rules.now) (K.verdict rules.now)) (change_of change)) }
{
    match values {
        [] => Err(here(alloc, FaultKind::BadSeverity)),
        [severity] => bare_change(alloc, place, severity),
        [severity, options @ ..] => full_change(alloc, rules, place, severity, options),
    }
}

/// A severity alone.
fn bare_change(alloc: Global, place: u32, value: &Value) -> Result<RuleChange, ConfigFault>
    ensures value { IfOk result (λ change. bare_change place (view value.now)
        ≡ good (change_of change)) }
    ensures bad { IfErr result (IsFault (bare_change place (view value.now))) }
    ensures plain { IfOk result (λ change. (change.place ≡ place) × (change.options ≡ None)) }
{
    match severity_of(value) {
        None => Err(here(alloc, FaultKind::BadSeverity)),
        Some(severity) => Ok(RuleChange {
            place,
            severity,
            options: None,
        }),
    }
}

/// A severity and options.
fn full_change<K: Known>(
    alloc: Global,
    rules: &K,
    place: u32,
    value: &Value,
    options: &[Value],
) -> Result<RuleChange, ConfigFault>
    requires { place < length (K.ids rules.now) }
    ensures value { IfOk result (λ change.
        full_change (known (K.ids rules.now) (K.verdict rules.now)) place (view value.now)
        (options_of options.now)
        ≡ good (change_of change)) }
    ensures bad { IfErr result (IsFault
        (full_change (known (K.ids rules.now) (K.verdict rules.now)) place (view value.now)
        (options_of options.now))) }
    ensures fine { IfOk result (λ change.
        IsFine (known (K.ids rules.now) (K.verdict rules.now)) (change_of change)) }
{
    let Some(severity) = severity_of(value) else {
        return Err(here(alloc, FaultKind::BadSeverity));
    };
    match rules.verdict(alloc, place, options)? {
        Verdict::BadOption => Err(here(alloc, FaultKind::BadOption)),
        Verdict::BadSelector => Err(here(alloc, FaultKind::BadSelector)),
        Verdict::Fine => Ok(RuleChange {
            place,
            severity,
            options: Some(Items::from_vec(copy_options(alloc, options)?)),
        }),
    }
}
