//! What was read and isn't yet in a node.
ghost use Rattle.std.specs.Prelude.{◌≡◌, ◌++◌, None, Some, IfOk, OnOk, length, map};
ghost use Rattle.std.specs.Bool.{OnTrue};
ghost use Rattle.es_grammar.specs.Drafts.{empty, joined};
ghost use Rattle.es_grammar.specs.Parts.{placed, with_child, with_setting, with_token};

use es_grammar::{Child, Draft, Field, Setting};
use es_text::{Items, NoMemory, Token};
use std::alloc::Global;

/// Nothing.
pub fn nothing(alloc: Global) -> Draft
    ensures { result ≡ empty }
{
    Draft {
        children: Items::new(alloc),
        settings: Items::new(alloc),
        tokens: Items::new(alloc),
        becomes: None,
    }
}

/// Whether nothing was read.
pub fn is_empty(draft: &Draft) -> bool
    ensures { OnTrue result (draft.now ≡ empty) }
{
    draft.tokens.len() == 0
        && draft.children.len() == 0
        && draft.settings.len() == 0
        && draft.becomes.is_none()
}

/// Whether nothing was read, and no field is given: then what a symbol reads is what it gives.
pub fn is_bare(field: Option<Field>, draft: &Draft) -> bool
    ensures { OnTrue result ((field ≡ None) × (draft.now ≡ empty)) }
{
    field.is_none() && is_empty(draft)
}

/// The items of the second list behind those of the first. Takes time in the length of the second, or
/// constant time where one of them is empty.
fn append<T: Drop>(first: Items<T>, more: Items<T>) -> Result<Items<T>, NoMemory>
    ensures { IfOk result (λ all. all ≡ first ++ more) }
{
    if first.len() == 0 {
        return Ok(more);
    }
    if more.len() == 0 {
        return Ok(first);
    }
    let mut all = first.into_vec();
    let mut more = more.into_vec();
    all.append(&mut more)?;
    Ok(Items::from_vec(all))
}

/// What was read first, and then more.
pub fn join(first: Draft, more: Draft) -> Result<Draft, NoMemory>
    ensures { IfOk result (λ all. all ≡ joined first more) }
{
    Ok(Draft {
        children: append(first.children, more.children)?,
        settings: append(first.settings, more.settings)?,
        tokens: append(first.tokens, more.tokens)?,
        becomes: more.becomes.or(first.becomes),
    })
}

pub fn add_child(draft: &mut Draft, child: Child) -> Result<(), NoMemory>
    ensures { OnOk result (draft.new ≡ with_child draft.old child) }
{
    draft.children.push(child)?;
    Ok(())
}

pub fn add_setting(draft: &mut Draft, setting: Setting) -> Result<(), NoMemory>
    ensures { OnOk result (draft.new ≡ with_setting draft.old setting) }
{
    draft.settings.push(setting)?;
    Ok(())
}

pub fn add_token(draft: &mut Draft, token: Token) -> Result<(), NoMemory>
    ensures { OnOk result (draft.new ≡ with_token draft.old token) }
{
    draft.tokens.push(token)?;
    Ok(())
}

/// The field for each child that has none yet.
fn place(
    alloc: Global,
    field: Option<Field>,
    children: Items<Child>,
) -> Result<Items<Child>, NoMemory>
    ensures { IfOk result (λ all. all ≡ map (placed field) children) }
{
    let Some(field) = field else {
        return Ok(children);
    };
    if children.len() == 1 {
        return Ok(place_one(field, children.into_vec()));
    }
    let mut all = Vec::with_capacity(alloc, children.len())?;
    for child in children.into_vec() {
        let Child { field: own, shape } = child;
        all.push(Child {
            field: own.or(Some(field)),
            shape,
        })?;
    }
    Ok(Items::from_vec(all))
}

/// The same for one child, whose memory is kept.
fn place_one(field: Field, children: Vec<Child>) -> Items<Child>
    requires { length children.items ≡ 1 }
    ensures { result ≡ map (placed (Some field)) children.items }
{
    let mut all = children;
    let child = &mut all[0];
    child.field = child.field.or(Some(field));
    Items::from_vec(all)
}

/// What was read before, and then more, the children of which go into this field.
pub fn extend(
    alloc: Global,
    draft: Draft,
    field: Option<Field>,
    more: Draft,
) -> Result<Draft, NoMemory>
    ensures { IfOk result (λ all.
        all ≡ joined draft (record more { children = map (placed field) more.children })) }
{
    let Draft {
        children,
        settings,
        tokens,
        becomes,
    } = more;
    let children = place(alloc, field, children)?;
    let more = Draft {
        children,
        settings,
        tokens,
        becomes,
    };
    join(draft, more)
}
