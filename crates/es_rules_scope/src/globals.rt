//! Global variables.
ghost use Rattle.std.specs.Prelude.{List, ℕ, ◌≡◌, IfOk, OnOk, Some, map};
ghost use Rattle.std.specs.HashMap.{get_by_text};
ghost use Rattle.std.specs.List.{list_any};
ghost use Rattle.std.specs.Map.{update};
ghost use Rattle.std.specs.Str.{bytes_eq, encode_utf8_all};
ghost use Rattle.es_settings.specs.Settings.{settings_of};
ghost use Rattle.es_rules_scope.specs.Globals.{AreGlobals, built_in, is_built_in, is_commonjs, is_global_by, is_word, of_commonjs, use_of};

use es_settings::{FileConfig, GlobalUse};
use es_text::{NoMemory, SourceType, Txt};
use std::alloc::Global;
use std::collections::HashMap;

static BUILT_IN: [&str; 59] = [
    "AggregateError",
    "Array",
    "ArrayBuffer",
    "Atomics",
    "BigInt",
    "BigInt64Array",
    "BigUint64Array",
    "Boolean",
    "DataView",
    "Date",
    "Error",
    "EvalError",
    "FinalizationRegistry",
    "Float32Array",
    "Float64Array",
    "Function",
    "Infinity",
    "Int16Array",
    "Int32Array",
    "Int8Array",
    "JSON",
    "Map",
    "Math",
    "NaN",
    "Number",
    "Object",
    "Promise",
    "Proxy",
    "RangeError",
    "ReferenceError",
    "Reflect",
    "RegExp",
    "Set",
    "SharedArrayBuffer",
    "String",
    "Symbol",
    "SyntaxError",
    "TypeError",
    "URIError",
    "Uint16Array",
    "Uint32Array",
    "Uint8Array",
    "Uint8ClampedArray",
    "WeakMap",
    "WeakRef",
    "WeakSet",
    "decodeURI",
    "decodeURIComponent",
    "encodeURI",
    "encodeURIComponent",
    "escape",
    "eval",
    "globalThis",
    "isFinite",
    "isNaN",
    "parseFloat",
    "parseInt",
    "undefined",
    "unescape",
];

static OF_COMMONJS: [&str; 4] = ["exports", "global", "module", "require"];

/// The global variables that ECMAScript has by itself.
#[tactic(auto, unfolding(crate::specs::Globals::built_in))]
fn built_in() -> &'static [&'static str]
    ensures { map (λ word. word.now) result.now ≡ built_in }
{
    &BUILT_IN
}

/// The global variables that CommonJS has besides.
#[tactic(auto, unfolding(crate::specs::Globals::of_commonjs))]
fn of_commonjs() -> &'static [&'static str]
    ensures { map (λ word. word.now) result.now ≡ of_commonjs }
{
    &OF_COMMONJS
}

/// Whether the name is one of the words.
fn is_word(words: &[&str], name: &str) -> bool
    ensures { result ≡ list_any (λ word. bytes_eq word.now name.now) words.now }
{
    words.iter().any(|word| *word == name)
}

/// Whether ECMAScript has the global variable by itself.
fn is_of_language(name: &str) -> bool
    ensures { result ≡ is_word built_in name.now }
{
    is_word(built_in(), name)
}

/// Whether CommonJS has the global variable besides.
fn is_of_commonjs(name: &str) -> bool
    ensures { result ≡ is_word of_commonjs name.now }
{
    is_word(of_commonjs(), name)
}

fn is_commonjs(source_type: SourceType) -> bool
    ensures { result ≡ is_commonjs source_type }
{
    matches!(source_type, SourceType::Commonjs)
}

/// Whether a text of this source type has the global variable by itself.
fn is_built_in(source_type: SourceType, name: &str) -> bool
    ensures { result ≡ is_built_in source_type name.now }
{
    is_of_language(name) || (is_commonjs(source_type) && is_of_commonjs(name))
}

/// What is set of global variables, by their names.
#[derive(Drop)]
pub struct Globals {
    set: HashMap<String, GlobalUse>,
    source_type: SourceType,
}

impl Globals {
    /// Those of a configuration.
    pub fn of(alloc: Global, config: &FileConfig) -> Result<Globals, NoMemory>
        ensures { IfOk result (AreGlobals (settings_of config.now)) }
    {
        Ok(Globals {
            set: table_of(alloc, config.globals.as_slice())?,
            source_type: config.source_type,
        })
    }

    /// Whether the name is a global variable's.
    pub fn has(&self, name: &str) -> bool
        ensures { result ≡ is_global_by (get_by_text self.now.set name.now) self.now.source_type name.now }
    {
        match self.set.get(name) {
            Some(GlobalUse::On) => true,
            Some(GlobalUse::Off) => false,
            None => is_built_in(self.source_type, name),
        }
    }
}

/// What the last entry of each name says of it.
#[tactic(auto, using(crate::proofs::GlobalsLemmas::set_more))]
fn table_of(
    alloc: Global,
    globals: &[(Txt, GlobalUse)],
) -> Result<HashMap<String, GlobalUse>, NoMemory>
    ensures { IfOk result (λ table. (name : List ℕ) → get_by_text table name ≡ use_of globals.now name) }
{
    let mut table = HashMap::new(alloc);
    for (name, global) in globals {
        set(alloc, &mut table, name, *global)?;
    }
    Ok(table)
}

/// Sets what is said of the name.
fn set(
    alloc: Global,
    table: &mut HashMap<String, GlobalUse>,
    name: &Txt,
    global: GlobalUse,
) -> Result<(), NoMemory>
    ensures { OnOk result ((other : List ℕ) → get_by_text table.new other
        ≡ update bytes_eq (get_by_text table.old) (encode_utf8_all name.now) (Some global) other) }
{
    table.insert(String::from_str(alloc, name.as_str())?, global)?;
    Ok(())
}
