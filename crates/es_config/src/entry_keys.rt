//! The keys of an entry.
#![tactic(auto, using(crate::proofs::WalksLemmas::fault_here))]

ghost use Rattle.std.specs.Prelude.{◌≡◌, All, IfErr, OnOk, false, true};
ghost use Rattle.serde_json.specs.View.{members_view, view};
ghost use Rattle.es_config.specs.Entries.{layer_of};
ghost use Rattle.es_config.specs.Reading.{IsFine, edition_shape, entry_keys, files_shape, globals_shape, ignores_shape, inline_shape, is_right, known, language_keys, linter_keys, member_of, object_of, rules_shape, type_shape, unused_shape};
ghost use Rattle.es_config.specs.declared.fault.FaultKind.TheVariants.{WrongShape};
ghost use Rattle.es_config.specs.Walks.{IsFault, IsHere, all_members, good};

use crate::entry::Entry;
use crate::fault::{ConfigFault, FaultKind};
use crate::file_globs::{files_of, ignores_of};
use crate::pointer::{here, under_key};
use crate::rule_changes::changes_of;
use crate::said_globals::globals_of;
use crate::shapes::{names_edition, type_of, unused_of};
use es_settings::Known;
use serde_json::{Map, Value};
use std::alloc::Global;

/// Sets what the members of an entry say.
pub fn set_members<K: Known>(
    alloc: Global,
    rules: &K,
    members: &Map<String, Value>,
    entry: &mut Entry,
) -> Result<(), ConfigFault>
    ensures value { OnOk result
        (all_members (member_of (entry_keys (known (K.ids rules.now) (K.verdict rules.now))))
        (layer_of entry.old)
        (members_view members.now.entries) ≡ good (layer_of entry.new)) }
    ensures bad { IfErr result (IsFault
        (all_members (member_of (entry_keys (known (K.ids rules.now) (K.verdict rules.now))))
        (layer_of entry.old)
        (members_view members.now.entries))) }
    ensures fine { OnOk result
        (All (IsFine (known (K.ids rules.now) (K.verdict rules.now))) (layer_of entry.old).rules
        → All (IsFine (known (K.ids rules.now) (K.verdict rules.now))) (layer_of entry.new).rules) }
{
    for (key, value) in members.iter() {
        if let Err(fault) = set_member(alloc, rules, key.as_str(), value, entry) {
            return Err(under_key(alloc, key.as_str(), fault));
        }
    }
    Ok(())
}

fn set_member<K: Known>(
    alloc: Global,
    rules: &K,
    key: &str,
    value: &Value,
    entry: &mut Entry,
) -> Result<(), ConfigFault>
    ensures value { OnOk result
        (member_of (entry_keys (known (K.ids rules.now) (K.verdict rules.now)))
        (layer_of entry.old) key.now (view value.now)
        ≡ good (layer_of entry.new)) }
    ensures bad { IfErr result (IsFault
        (member_of (entry_keys (known (K.ids rules.now) (K.verdict rules.now)))
        (layer_of entry.old) key.now (view value.now))) }
    ensures fine { OnOk result
        (All (IsFine (known (K.ids rules.now) (K.verdict rules.now))) (layer_of entry.old).rules
        → All (IsFine (known (K.ids rules.now) (K.verdict rules.now))) (layer_of entry.new).rules) }
{
    match key {
        "files" => set_files(alloc, value, entry),
        "ignores" => set_ignores(alloc, value, entry),
        "languageOptions" => set_language(alloc, value, entry),
        "linterOptions" => set_linter(alloc, value, entry),
        "name" => right(alloc, value.is_string()),
        "rules" => set_rules(alloc, rules, value, entry),
        "settings" => right(alloc, value.is_object()),
        _ => Err(here(alloc, FaultKind::UnknownKey)),
    }
}

/// Sets nothing; a fault where the value isn't right.
fn right(alloc: Global, right: bool) -> Result<(), ConfigFault>
    ensures value { OnOk result (right ≡ true) }
    ensures bad { IfErr result (λ fault. (right ≡ false) × IsHere WrongShape fault) }
{
    if right {
        Ok(())
    } else {
        Err(here(alloc, FaultKind::WrongShape))
    }
}

fn set_files(alloc: Global, value: &Value, entry: &mut Entry) -> Result<(), ConfigFault>
    ensures value { OnOk result
        (files_shape (layer_of entry.old) (view value.now) ≡ good (layer_of entry.new)) }
    ensures bad { IfErr result (IsFault (files_shape (layer_of entry.old) (view value.now))) }
    ensures rules { entry.new.rules ≡ entry.old.rules }
{
    entry.files = Some(files_of(alloc, value)?);
    Ok(())
}

fn set_ignores(alloc: Global, value: &Value, entry: &mut Entry) -> Result<(), ConfigFault>
    ensures value { OnOk result
        (ignores_shape (layer_of entry.old) (view value.now) ≡ good (layer_of entry.new)) }
    ensures bad { IfErr result (IsFault (ignores_shape (layer_of entry.old) (view value.now))) }
    ensures rules { entry.new.rules ≡ entry.old.rules }
{
    entry.ignores = ignores_of(alloc, value)?;
    Ok(())
}

fn set_rules<K: Known>(
    alloc: Global,
    rules: &K,
    value: &Value,
    entry: &mut Entry,
) -> Result<(), ConfigFault>
    ensures value { OnOk result
        (rules_shape (known (K.ids rules.now) (K.verdict rules.now)) (layer_of entry.old)
        (view value.now)
        ≡ good (layer_of entry.new)) }
    ensures bad { IfErr result (IsFault
        (rules_shape (known (K.ids rules.now) (K.verdict rules.now)) (layer_of entry.old)
        (view value.now))) }
    ensures fine { OnOk result
        (All (IsFine (known (K.ids rules.now) (K.verdict rules.now))) (layer_of entry.new).rules) }
{
    entry.rules = changes_of(alloc, rules, value)?;
    Ok(())
}

/// Sets what `languageOptions` says.
fn set_language(alloc: Global, value: &Value, entry: &mut Entry) -> Result<(), ConfigFault>
    ensures value { OnOk result
        (object_of language_keys (layer_of entry.old) (view value.now)
        ≡ good (layer_of entry.new)) }
    ensures bad { IfErr result
        (IsFault (object_of language_keys (layer_of entry.old) (view value.now))) }
    ensures rules { entry.new.rules ≡ entry.old.rules }
{
    match value {
        Value::Object(members) => set_language_members(alloc, members, entry),
        _ => Err(here(alloc, FaultKind::WrongShape)),
    }
}

fn set_language_members(
    alloc: Global,
    members: &Map<String, Value>,
    entry: &mut Entry,
) -> Result<(), ConfigFault>
    ensures value { OnOk result
        (all_members (member_of language_keys) (layer_of entry.old)
        (members_view members.now.entries)
        ≡ good (layer_of entry.new)) }
    ensures bad { IfErr result (IsFault
        (all_members (member_of language_keys) (layer_of entry.old)
        (members_view members.now.entries))) }
    ensures rules { entry.new.rules ≡ entry.old.rules }
{
    for (key, value) in members.iter() {
        if let Err(fault) = set_language_member(alloc, key.as_str(), value, entry) {
            return Err(under_key(alloc, key.as_str(), fault));
        }
    }
    Ok(())
}

fn set_language_member(
    alloc: Global,
    key: &str,
    value: &Value,
    entry: &mut Entry,
) -> Result<(), ConfigFault>
    ensures value { OnOk result
        (member_of language_keys (layer_of entry.old) key.now (view value.now)
        ≡ good (layer_of entry.new)) }
    ensures bad { IfErr result
        (IsFault (member_of language_keys (layer_of entry.old) key.now (view value.now))) }
    ensures rules { entry.new.rules ≡ entry.old.rules }
{
    match key {
        "ecmaVersion" => right(alloc, names_edition(value)),
        "globals" => set_globals(alloc, value, entry),
        "sourceType" => set_type(alloc, value, entry),
        _ => Err(here(alloc, FaultKind::UnknownKey)),
    }
}

fn set_globals(alloc: Global, value: &Value, entry: &mut Entry) -> Result<(), ConfigFault>
    ensures value { OnOk result
        (globals_shape (layer_of entry.old) (view value.now) ≡ good (layer_of entry.new)) }
    ensures bad { IfErr result (IsFault (globals_shape (layer_of entry.old) (view value.now))) }
    ensures rules { entry.new.rules ≡ entry.old.rules }
{
    entry.globals = globals_of(alloc, value)?;
    Ok(())
}

fn set_type(alloc: Global, value: &Value, entry: &mut Entry) -> Result<(), ConfigFault>
    ensures value { OnOk result
        (type_shape (layer_of entry.old) (view value.now) ≡ good (layer_of entry.new)) }
    ensures bad { IfErr result (IsFault (type_shape (layer_of entry.old) (view value.now))) }
    ensures rules { entry.new.rules ≡ entry.old.rules }
{
    match type_of(value) {
        None => Err(here(alloc, FaultKind::WrongShape)),
        Some(source_type) => {
            entry.source_type = Some(source_type);
            Ok(())
        }
    }
}

/// Sets what `linterOptions` says.
fn set_linter(alloc: Global, value: &Value, entry: &mut Entry) -> Result<(), ConfigFault>
    ensures value { OnOk result
        (object_of linter_keys (layer_of entry.old) (view value.now) ≡ good (layer_of entry.new)) }
    ensures bad { IfErr result
        (IsFault (object_of linter_keys (layer_of entry.old) (view value.now))) }
    ensures rules { entry.new.rules ≡ entry.old.rules }
{
    match value {
        Value::Object(members) => set_linter_members(alloc, members, entry),
        _ => Err(here(alloc, FaultKind::WrongShape)),
    }
}

fn set_linter_members(
    alloc: Global,
    members: &Map<String, Value>,
    entry: &mut Entry,
) -> Result<(), ConfigFault>
    ensures value { OnOk result
        (all_members (member_of linter_keys) (layer_of entry.old) (members_view members.now.entries)
        ≡ good (layer_of entry.new)) }
    ensures bad { IfErr result (IsFault
        (all_members (member_of linter_keys) (layer_of entry.old)
        (members_view members.now.entries))) }
    ensures rules { entry.new.rules ≡ entry.old.rules }
{
    for (key, value) in members.iter() {
        if let Err(fault) = set_linter_member(alloc, key.as_str(), value, entry) {
            return Err(under_key(alloc, key.as_str(), fault));
        }
    }
    Ok(())
}

fn set_linter_member(
    alloc: Global,
    key: &str,
    value: &Value,
    entry: &mut Entry,
) -> Result<(), ConfigFault>
    ensures value { OnOk result
        (member_of linter_keys (layer_of entry.old) key.now (view value.now)
        ≡ good (layer_of entry.new)) }
    ensures bad { IfErr result
        (IsFault (member_of linter_keys (layer_of entry.old) key.now (view value.now))) }
    ensures rules { entry.new.rules ≡ entry.old.rules }
{
    match key {
        "noInlineConfig" => set_inline(alloc, value, entry),
        "reportUnusedDisableDirectives" => set_unused(alloc, value, entry),
        _ => Err(here(alloc, FaultKind::UnknownKey)),
    }
}

fn set_inline(alloc: Global, value: &Value, entry: &mut Entry) -> Result<(), ConfigFault>
    ensures value { OnOk result
        (inline_shape (layer_of entry.old) (view value.now) ≡ good (layer_of entry.new)) }
    ensures bad { IfErr result (IsFault (inline_shape (layer_of entry.old) (view value.now))) }
    ensures rules { entry.new.rules ≡ entry.old.rules }
{
    match value {
        Value::Bool(none) => {
            entry.inline = Some(!*none);
            Ok(())
        }
        _ => Err(here(alloc, FaultKind::WrongShape)),
    }
}

fn set_unused(alloc: Global, value: &Value, entry: &mut Entry) -> Result<(), ConfigFault>
    ensures value { OnOk result
        (unused_shape (layer_of entry.old) (view value.now) ≡ good (layer_of entry.new)) }
    ensures bad { IfErr result (IsFault (unused_shape (layer_of entry.old) (view value.now))) }
    ensures rules { entry.new.rules ≡ entry.old.rules }
{
    match unused_of(value) {
        None => Err(here(alloc, FaultKind::WrongShape)),
        Some(unused) => {
            entry.unused = Some(unused);
            Ok(())
        }
    }
}
