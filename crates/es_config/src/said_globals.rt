//! Global variables that an entry names.
#![tactic(auto, using(crate::proofs::WalksLemmas::fault_here))]

ghost use Rattle.std.specs.Prelude.{◌≡◌, IfErr, IfOk};
ghost use Rattle.serde_json.specs.View.{members_view, view};
ghost use Rattle.es_config.specs.Reading.{global_at};
ghost use Rattle.es_config.specs.Walks.{IsFault, each_member, good, in_object};

use crate::fault::{ConfigFault, FaultKind};
use crate::pointer::{here, under_key};
use crate::shapes::use_of;
use es_settings::GlobalUse;
use es_text::{Items, Txt};
use serde_json::{Map, Value};
use std::alloc::Global;

/// The global variables that the members of a value name.
pub fn globals_of(alloc: Global, value: &Value) -> Result<Items<(Txt, GlobalUse)>, ConfigFault>
    ensures value { IfOk result (λ globals.
        in_object (each_member global_at) (view value.now) ≡ good globals) }
    ensures bad { IfErr result (IsFault (in_object (each_member global_at) (view value.now))) }
{
    match value {
        Value::Object(members) => globals_in(alloc, members),
        _ => Err(here(alloc, FaultKind::WrongShape)),
    }
}

fn globals_in(
    alloc: Global,
    members: &Map<String, Value>,
) -> Result<Items<(Txt, GlobalUse)>, ConfigFault>
    ensures value { IfOk result (λ globals.
        each_member global_at (members_view members.now.entries) ≡ good globals) }
    ensures bad { IfErr result
        (IsFault (each_member global_at (members_view members.now.entries))) }
{
    let mut globals = Items::new(alloc);
    for (key, value) in members.iter() {
        match global_at(alloc, key.as_str(), value) {
            Ok(global) => globals.push(global)?,
            Err(fault) => return Err(under_key(alloc, key.as_str(), fault)),
        }
    }
    Ok(globals)
}

fn global_at(alloc: Global, key: &str, value: &Value) -> Result<(Txt, GlobalUse), ConfigFault>
    ensures value { IfOk result (λ global. global_at key.now (view value.now) ≡ good global) }
    ensures bad { IfErr result (IsFault (global_at key.now (view value.now))) }
{
    match use_of(value) {
        Some(said) => Ok((Txt::new(alloc, key)?, said)),
        None => Err(here(alloc, FaultKind::WrongShape)),
    }
}
