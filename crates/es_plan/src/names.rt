//! Names of files.
ghost use Rattle.std.specs.Prelude.{◌≡◌, ◌-◌, [], IfOk, OnOk, length, map, slice_get, string_bytes};
ghost use Rattle.std.specs.Str.{chars};
ghost use Rattle.es_plan.specs.Names.{climbed, each_once, is_absolute, joined, kept_parts, leads_down, normalised, parts_of, with_part, written};
ghost use Rattle.es_plan.specs.Plans.{name_of, names_of};

use es_text::{Items, NoMemory, Txt};
use indexmap::IndexSet;
use std::alloc::{AllocError, Global};

/// What stands between the slashes.
fn parts_of<'a>(alloc: Global, name: &'a str) -> Result<Vec<&'a str>, AllocError>
    ensures { IfOk result (λ parts. map (λ part. part.now) parts.items ≡ parts_of name.entry.now) }
{
    name.split('/').collect(alloc)
}

/// Whether a `..` behind the parts takes back the last one.
fn leads_down(parts: &[&str]) -> bool
    ensures { result
        ≡ leads_down (slice_get (map (λ part. part.now) parts.now) (length parts.now - 1)) }
{
    match parts.last() {
        Some(last) => *last != "..",
        None => false,
    }
}

/// Puts a `..` behind the parts: it takes back the last one, and is dropped at the root.
#[tactic(auto, using(crate::proofs::NamesLemmas::taken_back, crate::proofs::NamesLemmas::dropped, crate::proofs::NamesLemmas::put_behind))]
fn climb<'a>(parts: &mut Vec<&'a str>, absolute: bool) -> Result<(), NoMemory>
    ensures { OnOk result
        (map (λ part. part.now) parts.new.items ≡ climbed absolute (map (λ part. part.now) parts.old.items)) }
{
    if leads_down(parts.as_slice()) {
        parts.pop();
    } else if !absolute {
        parts.push("..")?;
    }
    Ok(())
}

/// Puts one part more behind the parts.
fn add_part<'a>(parts: &mut Vec<&'a str>, absolute: bool, part: &'a str) -> Result<(), NoMemory>
    ensures { OnOk result
        (map (λ part. part.now) parts.new.items
        ≡ with_part absolute (map (λ part. part.now) parts.old.items) part.entry.now) }
{
    if part.is_empty() || part == "." {
        return Ok(());
    }
    if part == ".." {
        return climb(parts, absolute);
    }
    parts.push(part)?;
    Ok(())
}

/// The parts of a normalised name.
fn kept_parts<'a>(
    alloc: Global,
    parts: &[&'a str],
    absolute: bool,
) -> Result<Vec<&'a str>, NoMemory>
    ensures { IfOk result (λ kept. map (λ part. part.now) kept.items
        ≡ kept_parts absolute (map (λ part. part.now) parts.now)) }
{
    let mut kept = Vec::new(alloc);
    for part in parts {
        add_part(&mut kept, absolute, part)?;
    }
    Ok(kept)
}

/// Whether it begins with a slash.
fn is_absolute(name: &str) -> bool
    ensures { result ≡ is_absolute name.now }
{
    name.starts_with('/')
}

/// The parts with slashes between them.
fn joined(alloc: Global, parts: &[&str]) -> Result<String, AllocError>
    ensures { IfOk result (λ text. string_bytes text ≡ joined (map (λ part. part.now) parts.now)) }
{
    parts.join(alloc, "/")
}

/// The name of these parts: a relative one without any is `.`.
fn written(alloc: Global, absolute: bool, parts: &[&str]) -> Result<String, NoMemory>
    ensures { IfOk result
        (λ text. string_bytes text ≡ written absolute (map (λ part. part.now) parts.now)) }
{
    let joined = joined(alloc, parts)?;
    if absolute {
        let mut text = String::from_str(alloc, "/")?;
        text.push_str(joined.as_str())?;
        return Ok(text);
    }
    if parts.is_empty() {
        return Ok(String::from_str(alloc, ".")?);
    }
    Ok(joined)
}

/// The normalised name.
fn normalised(alloc: Global, name: &str) -> Result<String, NoMemory>
    ensures { IfOk result (λ text. string_bytes text ≡ normalised name.now) }
{
    let absolute = is_absolute(name);
    let parts = parts_of(alloc, name)?;
    let kept = kept_parts(alloc, parts.as_slice(), absolute)?;
    written(alloc, absolute, kept.as_slice())
}

/// The normalised name as a text of its own.
pub fn name_of(alloc: Global, name: &str) -> Result<Txt, NoMemory>
    ensures { IfOk result (λ text. text ≡ name_of name.now) }
{
    Txt::new(alloc, normalised(alloc, name)?.as_str())
}

/// The normalised names, each once, at its first place.
fn each_once(alloc: Global, files: &[&str]) -> Result<IndexSet<String>, NoMemory>
    ensures { IfOk result (λ names. map string_bytes names.keys
        ≡ each_once (map (λ file. normalised file.now) files.now)) }
{
    let mut names = IndexSet::new(alloc);
    for file in files {
        names.insert(normalised(alloc, file)?)?;
    }
    Ok(names)
}

/// The names to lint: normalised, each once, at its first place. It takes linear time.
pub fn names_of(alloc: Global, files: &[&str]) -> Result<Items<Txt>, NoMemory>
    ensures { IfOk result (λ names. names ≡ names_of (map (λ file. file.now) files.now)) }
{
    let once = each_once(alloc, files)?;
    let each = once.as_slice();
    let mut names = Items::new(alloc);
    for name in each {
        names.push(Txt::new(alloc, name.as_str())?)?;
    }
    Ok(names)
}
