//! Faults, and the JSON pointers (RFC 6901) to where they stand. A pointer is made from its end: only where there is
//! a fault, a part at a time.
ghost use Rattle.std.specs.Prelude.{◌++◌, ◌≡◌, IfOk, OnOk, encode_utf8_all, string_bytes};
ghost use Rattle.std.specs.Str.{chars};
ghost use Rattle.es_config.specs.Walks.{IsBelow, IsHere, escaped, index_part, key_part};

use crate::fault::{ConfigFault, FaultKind};
use es_text::{NoMemory, Txt};
use std::alloc::{AllocError, Global};

/// A fault of the value at hand.
pub fn here(alloc: Global, kind: FaultKind) -> ConfigFault
    ensures { IsHere kind result }
{
    match Txt::new(alloc, "") {
        Ok(pointer) => ConfigFault::Bad { kind, pointer },
        Err(NoMemory) => ConfigFault::NoMemory,
    }
}

/// The fault as it is told one level up, where its value stands under this key.
pub fn under_key(alloc: Global, key: &str, fault: ConfigFault) -> ConfigFault
    ensures { IsBelow (key_part key.now) fault result }
{
    match fault {
        ConfigFault::NoMemory => ConfigFault::NoMemory,
        ConfigFault::Bad { kind, pointer } => match key_pointer(alloc, key, pointer.as_str()) {
            Ok(pointer) => ConfigFault::Bad { kind, pointer },
            Err(NoMemory) => ConfigFault::NoMemory,
        },
    }
}

/// The fault as it is told one level up, where its value stands at this index.
pub fn under_index(alloc: Global, index: usize, fault: ConfigFault) -> ConfigFault
    ensures { IsBelow (index_part index) fault result }
{
    match fault {
        ConfigFault::NoMemory => ConfigFault::NoMemory,
        ConfigFault::Bad { kind, pointer } => match index_pointer(alloc, index, pointer.as_str()) {
            Ok(pointer) => ConfigFault::Bad { kind, pointer },
            Err(NoMemory) => ConfigFault::NoMemory,
        },
    }
}

/// The pointer with the part of this key in front.
fn key_pointer(alloc: Global, key: &str, pointer: &str) -> Result<Txt, NoMemory>
    ensures { IfOk result (λ whole. whole ≡ key_part key.now ++ chars pointer.now) }
{
    let mut text = String::from_str(alloc, "/")?;
    let mut rest = key.chars();
    while let Some(c) = rest.next() {
        push_escaped(&mut text, c)?;
    }
    text.push_str(pointer)?;
    Txt::new(alloc, text.as_str())
}

/// Puts a key's character at the end.
fn push_escaped(text: &mut String, c: char) -> Result<(), AllocError>
    ensures { OnOk result (string_bytes text.new
        ≡ string_bytes text.old ++ encode_utf8_all (escaped c)) }
{
    match c {
        '~' => text.push_str("~0"),
        '/' => text.push_str("~1"),
        _ => text.push(c),
    }
}

/// The pointer with the part of this index in front.
fn index_pointer(alloc: Global, index: usize, pointer: &str) -> Result<Txt, NoMemory>
    ensures { IfOk result (λ whole. whole ≡ index_part index ++ chars pointer.now) }
{
    let text = format!(in alloc; "/{index}{pointer}")?;
    Txt::new(alloc, text.as_str())
}
