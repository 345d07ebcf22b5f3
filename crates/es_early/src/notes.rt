//! Which node was the first at a key.
ghost use Rattle.std.specs.Prelude.{◌≡◌, OnOk};
ghost use Rattle.std.specs.HashMap.{get};
ghost use Rattle.std.specs.Option.{is_some};
ghost use Rattle.es_early.specs.Notes.{is_noted_before, noted};

use es_text::NoMemory;
use std::collections::HashMap;
use std::hash::Hash;

/// Notes the node at the key, where none was noted.
pub fn note<K: Eq + Hash + Drop>(
    notes: &mut HashMap<K, u32>,
    key: K,
    node: u32,
) -> Result<(), NoMemory>
    ensures { OnOk result ((other : K)
        → get K.eq notes.new other ≡ noted (K.eq key other) node (get K.eq notes.old other)) }
{
    if notes.get(&key).is_none() {
        notes.insert(key, node)?;
    }
    Ok(())
}

/// Whether a node before this one was noted at the key.
pub fn was_noted_before<K: Eq + Hash + Drop>(notes: &HashMap<K, u32>, key: K, node: u32) -> bool
    ensures { result ≡ is_noted_before (get K.eq notes.now key) node }
{
    match notes.get(&key) {
        Some(first) => *first < node,
        None => false,
    }
}

/// Whether a node was noted at the key.
pub fn was_noted<K: Eq + Hash + Drop>(notes: &HashMap<K, u32>, key: K) -> bool
    ensures { result ≡ is_some (get K.eq notes.now key) }
{
    notes.get(&key).is_some()
}
