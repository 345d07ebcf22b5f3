//! The globs of an entry: `files` and `ignores`.
#![tactic(auto, using(crate::proofs::WalksLemmas::fault_here))]

ghost use Rattle.std.specs.Prelude.{◌≡◌, IfErr, IfOk, map};
ghost use Rattle.serde_json.specs.Data.{array};
ghost use Rattle.serde_json.specs.View.{items_view, view};
ghost use Rattle.es_config.specs.Reading.{glob_at, globs_at};
ghost use Rattle.es_config.specs.Walks.{IsFault, each, good, in_array, some_of};

use crate::fault::{ConfigFault, FaultKind};
use crate::pointer::{here, under_index};
use es_globs::{Glob, GlobFault};
use es_text::Items;
use serde_json::Value;
use std::alloc::Global;

/// The globs of a value that lists, for each choice, those that have to match.
pub fn files_of(alloc: Global, value: &Value) -> Result<Items<Items<Glob>>, ConfigFault>
    ensures value { IfOk result (λ files. in_array (some_of globs_at) (view value.now)
        ≡ good files) }
    ensures bad { IfErr result (IsFault (in_array (some_of globs_at) (view value.now))) }
{
    match value {
        Value::Array(values) => some_files(alloc, values.as_slice()),
        _ => Err(here(alloc, FaultKind::WrongShape)),
    }
}

/// The globs of a value that lists globs.
pub fn ignores_of(alloc: Global, value: &Value) -> Result<Items<Glob>, ConfigFault>
    ensures value { IfOk result (λ globs. in_array (each glob_at) (view value.now) ≡ good globs) }
    ensures bad { IfErr result (IsFault (in_array (each glob_at) (view value.now))) }
{
    match value {
        Value::Array(values) => globs_in(alloc, values.as_slice()),
        _ => Err(here(alloc, FaultKind::WrongShape)),
    }
}

fn some_files(alloc: Global, values: &[Value]) -> Result<Items<Items<Glob>>, ConfigFault>
    ensures value { IfOk result (λ files. some_of globs_at (items_view values.now) ≡ good files) }
    ensures bad { IfErr result (IsFault (some_of globs_at (items_view values.now))) }
{
    if values.is_empty() {
        Err(here(alloc, FaultKind::WrongShape))
    } else {
        files_in(alloc, values)
    }
}

fn files_in(alloc: Global, values: &[Value]) -> Result<Items<Items<Glob>>, ConfigFault>
    ensures value { IfOk result (λ files. each globs_at (items_view values.now) ≡ good files) }
    ensures bad { IfErr result (IsFault (each globs_at (items_view values.now))) }
{
    let mut files = Items::new(alloc);
    for (index, value) in values.iter().enumerate() {
        match globs_at(alloc, value) {
            Ok(globs) => files.push(globs)?,
            Err(fault) => return Err(under_index(alloc, index, fault)),
        }
    }
    Ok(files)
}

/// The globs of an element of `files`, which is a glob or lists some.
fn globs_at(alloc: Global, value: &Value) -> Result<Items<Glob>, ConfigFault>
    ensures value { IfOk result (λ globs. globs_at (view value.now) ≡ good globs) }
    ensures bad { IfErr result (IsFault (globs_at (view value.now))) }
{
    match value {
        Value::String(_) => {
            let mut globs = Items::new(alloc);
            globs.push(glob_at(alloc, value)?)?;
            Ok(globs)
        }
        Value::Array(values) => some_globs(alloc, values.as_slice()),
        _ => Err(here(alloc, FaultKind::WrongShape)),
    }
}

fn some_globs(alloc: Global, values: &[Value]) -> Result<Items<Glob>, ConfigFault>
    ensures value { IfOk result (λ globs. some_of glob_at (items_view values.now) ≡ good globs) }
    ensures bad { IfErr result (IsFault (some_of glob_at (items_view values.now))) }
{
    if values.is_empty() {
        Err(here(alloc, FaultKind::WrongShape))
    } else {
        globs_in(alloc, values)
    }
}

fn globs_in(alloc: Global, values: &[Value]) -> Result<Items<Glob>, ConfigFault>
    ensures value { IfOk result (λ globs. each glob_at (items_view values.now) ≡ good globs) }
    ensures bad { IfErr result (IsFault (each glob_at (items_view values.now))) }
{
    let mut globs = Items::new(alloc);
    for (index, value) in values.iter().enumerate() {
        match glob_at(alloc, value) {
            Ok(glob) => globs.push(glob)?,
            Err(fault) => return Err(under_index(alloc, index, fault)),
        }
    }
    Ok(globs)
}

/// The glob that the value is.
fn glob_at(alloc: Global, value: &Value) -> Result<Glob, ConfigFault>
    ensures value { IfOk result (λ glob. glob_at (view value.now) ≡ good glob) }
    ensures bad { IfErr result (IsFault (glob_at (view value.now))) }
{
    let Value::String(text) = value else {
        return Err(here(alloc, FaultKind::WrongShape));
    };
    match Glob::read(alloc, text.as_str()) {
        Ok(glob) => Ok(glob),
        Err(GlobFault::BadGlob) => Err(here(alloc, FaultKind::BadGlob)),
        Err(GlobFault::NoMemory) => Err(ConfigFault::NoMemory),
    }
}
