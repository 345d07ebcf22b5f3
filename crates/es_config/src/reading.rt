//! Reading configurations.
#![tactic(auto, using(crate::proofs::WalksLemmas::fault_here))]

ghost use Rattle.std.specs.Prelude.{◌≡◌, All, IfErr, IfOk, length};
ghost use Rattle.serde_json.specs.View.{items_view, members_view, view};
ghost use Rattle.es_config.specs.Configurations.{AreTakenChanges};
ghost use Rattle.es_config.specs.Entries.{layer_of, layers_of};
ghost use Rattle.es_config.specs.Reading.{AreFine, HaveNoFloats, IsFine, IsJson, IsRead, IsRefused, TellsNoJson, entries_of, entry_at, known, nothing_set, stands_alone};
ghost use Rattle.es_config.specs.Walks.{IsFault, each, good};

use crate::config::Config;
use crate::entry::Entry;
use crate::entry_keys::set_members;
use crate::fault::{ConfigFault, FaultKind};
use crate::pointer::{here, under_index};
use es_settings::Known;
use es_text::Items;
use serde_json::{Map, Value};
use std::alloc::Global;
use std::slice::from_ref;

/// The configuration that the bytes are: an array of entries in JSON, or one entry as an object, in which the rules
/// that are known may stand. Of equal keys the last counts.
///
/// `Bad` tells the first fault, where the entries are gone through in their order and the keys of each object in the
/// order of their bytes; where the bytes aren't JSON its pointer is empty.
pub fn read<K: Known>(alloc: Global, bytes: &[u8], rules: &K) -> Result<Config, ConfigFault>
    ensures value { IfOk result (λ config. IsRead
        (known (K.ids rules.now) (K.verdict rules.now)) bytes.now (layers_of config.entries)) }
    ensures bad { IfErr result
        (IsRefused (known (K.ids rules.now) (K.verdict rules.now)) bytes.now) }
    ensures count { IfOk result (λ config. config.count ≡ length (K.ids rules.now)) }
    ensures taken { IfOk result (λ config. AreTakenChanges
        (K.verdict rules.now) (length (K.ids rules.now)) (layers_of config.entries)) }
    ensures floats { IfOk result (λ config. HaveNoFloats (layers_of config.entries)) }
{
    config_of(alloc, bytes, rules)
}

fn config_of<K: Known>(alloc: Global, bytes: &[u8], rules: &K) -> Result<Config, ConfigFault>
    ensures value { IfOk result (λ config. IsRead
        (known (K.ids rules.now) (K.verdict rules.now)) bytes.now (layers_of config.entries)) }
    ensures bad { IfErr result
        (IsRefused (known (K.ids rules.now) (K.verdict rules.now)) bytes.now) }
    ensures count { IfOk result (λ config. config.count ≡ length (K.ids rules.now)) }
    ensures fine { IfOk result (λ config.
        AreFine (known (K.ids rules.now) (K.verdict rules.now)) (layers_of config.entries)) }
{
    let value = json_of(alloc, bytes)?;
    let entries = entries_of(alloc, rules, &value)?;
    Ok(Config::with_built_in(alloc, entries.into_vec(), rules.count())?)
}

/// The value that the bytes are as JSON.
fn json_of(alloc: Global, bytes: &[u8]) -> Result<Value, ConfigFault>
    ensures value { IfOk result (λ value. IsJson bytes.now (view value)) }
    ensures bad { IfErr result (TellsNoJson bytes.now) }
{
    match Value::from_slice(alloc, bytes) {
        Ok(value) => Ok(value),
        Err(error) if error.is_memory() => Err(ConfigFault::NoMemory),
        Err(_) => Err(here(alloc, FaultKind::NotJson)),
    }
}

/// The entries that the value lists; an object is the array of that one entry.
fn entries_of<K: Known>(
    alloc: Global,
    rules: &K,
    value: &Value,
) -> Result<Items<Entry>, ConfigFault>
    ensures value { IfOk result (λ entries.
        entries_of (known (K.ids rules.now) (K.verdict rules.now)) (view value.now)
        ≡ good (layers_of entries)) }
    ensures bad { IfErr result (IsFault
        (entries_of (known (K.ids rules.now) (K.verdict rules.now)) (view value.now))) }
    ensures fine { IfOk result (λ entries.
        AreFine (known (K.ids rules.now) (K.verdict rules.now)) (layers_of entries)) }
{
    match value {
        Value::Array(values) => entries_in(alloc, rules, values.as_slice()),
        Value::Object(_) => entries_in(alloc, rules, from_ref(value)),
        _ => Err(here(alloc, FaultKind::WrongShape)),
    }
}

fn entries_in<K: Known>(
    alloc: Global,
    rules: &K,
    values: &[Value],
) -> Result<Items<Entry>, ConfigFault>
    ensures value { IfOk result (λ entries.
        each (entry_at (known (K.ids rules.now) (K.verdict rules.now))) (items_view values.now)
        ≡ good (layers_of entries)) }
    ensures bad { IfErr result (IsFault
        (each (entry_at (known (K.ids rules.now) (K.verdict rules.now))) (items_view values.now))) }
    ensures fine { IfOk result (λ entries.
        AreFine (known (K.ids rules.now) (K.verdict rules.now)) (layers_of entries)) }
{
    let mut entries = Items::new(alloc);
    for (index, value) in values.iter().enumerate() {
        match entry_at(alloc, rules, value) {
            Ok(entry) => entries.push(entry)?,
            Err(fault) => return Err(under_index(alloc, index, fault)),
        }
    }
    Ok(entries)
}

fn entry_at<K: Known>(alloc: Global, rules: &K, value: &Value) -> Result<Entry, ConfigFault>
    ensures value { IfOk result (λ entry.
        entry_at (known (K.ids rules.now) (K.verdict rules.now)) (view value.now)
        ≡ good (layer_of entry)) }
    ensures bad { IfErr result (IsFault
        (entry_at (known (K.ids rules.now) (K.verdict rules.now)) (view value.now))) }
    ensures fine { IfOk result (λ entry.
        All (IsFine (known (K.ids rules.now) (K.verdict rules.now))) (layer_of entry).rules) }
{
    let Value::Object(members) = value else {
        return Err(here(alloc, FaultKind::WrongShape));
    };
    let mut entry = nothing_set(alloc, stands_alone(members));
    set_members(alloc, rules, members, &mut entry)?;
    Ok(entry)
}

/// An entry that sets nothing.
fn nothing_set(alloc: Global, alone: bool) -> Entry
    ensures { layer_of result ≡ nothing_set alone }
{
    Entry {
        files: None,
        ignores: Items::new(alloc),
        alone,
        source_type: None,
        globals: Items::new(alloc),
        inline: None,
        unused: None,
        rules: Items::new(alloc),
    }
}

/// Whether the keys are `ignores` and besides at most `name`.
fn stands_alone(members: &Map<String, Value>) -> bool
    ensures { result ≡ stands_alone (members_view members.now.entries) }
{
    let mut ignores = false;
    for (key, _) in members.iter() {
        match key.as_str() {
            "ignores" => ignores = true,
            "name" => {}
            _ => return false,
        }
    }
    ignores
}
