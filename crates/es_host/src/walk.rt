//! The one walk through a tree, and what it tells the rules of a kit.
ghost use Rattle.std.specs.Prelude.{ℕ, ◌≡◌, ◌<◌, List, [], ◌∷◌, ◌++◌, All, length, map, Some, OnOk};
ghost use Rattle.std.specs.List.{flat_map};
ghost use Rattle.es_tree.specs.Rows.{IsNumbered, kind_of};
ghost use Rattle.es_settings.specs.Settings.{Options};
ghost use Rattle.es_host.specs.Files.{IsWhole, file_in, file_of, rows_in};
ghost use Rattle.es_host.specs.Hearing.{EachHeard, events_of};
ghost use Rattle.es_host.specs.Lawful.{hears, told_of};
ghost use Rattle.es_host.specs.Listeners.{AreKinds, ServeAll};
ghost use Rattle.es_host.specs.Meanings.{Event, Fits};
ghost use Rattle.es_host.specs.Walk.{Moment, children, moment, walk, walk_from};

use crate::file::{Ctx, FileView};
use crate::listeners::{Listener, kinds_of};
use crate::rule::Rule;
use es_selectors::Selector;
use es_text::{Items, NoMemory};
use es_tree::Tree;
use std::alloc::Global;

/// Whether the selector at this index matches the node, which the walk enters or leaves, and hears of that.
fn hears(tree: &Tree, interest: &[Selector], leaves: bool, node: u32, which: u32) -> bool
    requires { node < length tree.now }
    ensures { (ancestors : List ℕ) → result ≡ hears tree.now interest.now (moment leaves ancestors node) which }
{
    match interest.get(which as usize) {
        Some(selector) => selector.exit() == leaves && selector.matches(tree, node),
        None => false,
    }
}

/// Tells the rule of the node, if the selector at this index of its interest has it so.
fn tell<R: Rule>(
    alloc: Global,
    ctx: &Ctx,
    rule: &mut R,
    leaves: bool,
    node: u32,
    which: u32,
) -> Result<(), NoMemory>
    requires whole { IsWhole (file_of ctx.now) }
    requires node { node < length (rows_in (file_of ctx.now)) }
    requires ancestors { All (λ ancestor. ancestor < length (rows_in (file_of ctx.now))) ctx.now.ancestors.now }
    ensures same { R.meaning rule.new ≡ R.meaning rule.old }
    ensures heard { OnOk result ((options : Options) (events : List Event) → R.heard rule.old (file_of ctx.now) options events
        → R.heard rule.new (file_of ctx.now) options (events ++ told_of (rows_in (file_of ctx.now))
        ((R.meaning rule.old).interest options) (moment leaves ctx.now.ancestors.now node) which)) }
{
    if hears(&ctx.file.parsed.tree, rule.interest(), leaves, node, which) {
        rule.on_node(alloc, ctx, node, which)?;
    }
    Ok(())
}

/// Tells the rules of the node, in the order of the listeners.
fn tell_all<R: Rule>(
    alloc: Global,
    ctx: &Ctx,
    rules: &mut [R],
    listeners: &[Listener],
    leaves: bool,
    node: u32,
) -> Result<(), NoMemory>
    requires whole { IsWhole (file_of ctx.now) }
    requires node { node < length (rows_in (file_of ctx.now)) }
    requires ancestors { All (λ ancestor. ancestor < length (rows_in (file_of ctx.now))) ctx.now.ancestors.now }
    requires rules { All (λ listener. listener.rule < length rules.old) listeners.now }
    requires serve { (kind : ℕ) → kind_of (rows_in (file_of ctx.now)) node ≡ Some kind
        → ServeAll (map R.meaning rules.old) (file_of ctx.now) kind listeners.now }
    ensures same { map R.meaning rules.new ≡ map R.meaning rules.old }
    ensures heard { OnOk result ((moments : List Moment) →
        EachHeard R.heard (file_of ctx.now) (events_of (map R.meaning rules.old) (file_of ctx.now) moments) rules.old →
        EachHeard R.heard (file_of ctx.now) (events_of (map R.meaning rules.old) (file_of ctx.now)
        (moments ++ moment leaves ctx.now.ancestors.now node ∷ [])) rules.new) }
{
    for listener in listeners {
        tell(
            alloc,
            ctx,
            &mut rules[listener.rule],
            leaves,
            node,
            listener.which,
        )?;
    }
    Ok(())
}

/// Tells the rules of the node, below those on the path.
fn tell_on<R: Rule>(
    alloc: Global,
    file: &FileView,
    rules: &mut [R],
    kinds: &[Items<Listener>],
    path: &[u32],
    leaves: bool,
    node: u32,
) -> Result<(), NoMemory>
    requires whole { IsWhole (file_in file.now) }
    requires node { node < length (rows_in (file_in file.now)) }
    requires path { All (λ ancestor. ancestor < length (rows_in (file_in file.now))) path.now }
    requires kinds { AreKinds (map R.meaning rules.old) (file_in file.now) kinds.now }
    ensures same { map R.meaning rules.new ≡ map R.meaning rules.old }
    ensures heard { OnOk result ((moments : List Moment) →
        EachHeard R.heard (file_in file.now) (events_of (map R.meaning rules.old) (file_in file.now) moments) rules.old →
        EachHeard R.heard (file_in file.now) (events_of (map R.meaning rules.old) (file_in file.now)
        (moments ++ moment leaves path.now node ∷ [])) rules.new) }
{
    let ctx = Ctx {
        file,
        ancestors: path,
    };
    let kind = file.parsed.tree.kind(node);
    let listeners = kinds[kind as usize].as_slice();
    tell_all(alloc, &ctx, rules, listeners, leaves, node)
}

/// Walks through the node, below those on the path.
#[cycle(walk)]
fn walk_from<R: Rule>(
    alloc: Global,
    file: &FileView,
    rules: &mut [R],
    kinds: &[Items<Listener>],
    path: &mut Vec<u32>,
    node: u32,
) -> Result<(), NoMemory>
    requires whole { IsWhole (file_in file.now) }
    requires numbered { IsNumbered (rows_in (file_in file.now)) }
    requires node { node < length (rows_in (file_in file.now)) }
    requires path { All (λ ancestor. ancestor < length (rows_in (file_in file.now))) path.old.items }
    requires kinds { AreKinds (map R.meaning rules.old) (file_in file.now) kinds.now }
    ensures path { OnOk result (path.new.items ≡ path.old.items) }
    ensures same { map R.meaning rules.new ≡ map R.meaning rules.old }
    ensures heard { OnOk result ((moments : List Moment) →
        EachHeard R.heard (file_in file.now) (events_of (map R.meaning rules.old) (file_in file.now) moments) rules.old →
        EachHeard R.heard (file_in file.now) (events_of (map R.meaning rules.old) (file_in file.now)
        (moments ++ walk_from (rows_in (file_in file.now)) path.old.items node)) rules.new) }
{
    tell_on(alloc, file, rules, kinds, path.as_slice(), false, node)?;
    path.push(node)?;
    walk_children(alloc, file, rules, kinds, path, node)?;
    let _node = path.pop();
    tell_on(alloc, file, rules, kinds, path.as_slice(), true, node)?;
    Ok(())
}

/// Walks through the children of the node, which is the last on the path.
#[cycle(walk)]
fn walk_children<R: Rule>(
    alloc: Global,
    file: &FileView,
    rules: &mut [R],
    kinds: &[Items<Listener>],
    path: &mut Vec<u32>,
    node: u32,
) -> Result<(), NoMemory>
    requires whole { IsWhole (file_in file.now) }
    requires numbered { IsNumbered (rows_in (file_in file.now)) }
    requires node { node < length (rows_in (file_in file.now)) }
    requires path { All (λ ancestor. ancestor < length (rows_in (file_in file.now))) path.old.items }
    requires kinds { AreKinds (map R.meaning rules.old) (file_in file.now) kinds.now }
    ensures path { OnOk result (path.new.items ≡ path.old.items) }
    ensures same { map R.meaning rules.new ≡ map R.meaning rules.old }
    ensures heard { OnOk result ((moments : List Moment) →
        EachHeard R.heard (file_in file.now) (events_of (map R.meaning rules.old) (file_in file.now) moments) rules.old →
        EachHeard R.heard (file_in file.now) (events_of (map R.meaning rules.old) (file_in file.now)
        (moments ++ flat_map (walk_from (rows_in (file_in file.now)) path.old.items)
        (children (rows_in (file_in file.now)) node))) rules.new) }
{
    let mut index: u32 = 0;
    while let Some(child) = file.parsed.tree.child(node, index) {
        walk_from(alloc, file, rules, kinds, path, child)?;
        let Some(next) = index.checked_add(1) else {
            return Err(NoMemory);
        };
        index = next;
    }
    Ok(())
}

/// Walks through the whole tree, and tells the rules of each node that it enters or leaves.
pub fn walk<R: Rule>(alloc: Global, file: &FileView, rules: &mut [R]) -> Result<(), NoMemory>
    requires whole { IsWhole (file_in file.now) }
    requires fits { Fits (map R.meaning rules.old) (file_in file.now) }
    requires begun { EachHeard R.heard (file_in file.now) (λ _. []) rules.old }
    ensures same { map R.meaning rules.new ≡ map R.meaning rules.old }
    ensures heard { OnOk result (EachHeard R.heard (file_in file.now)
        (events_of (map R.meaning rules.old) (file_in file.now) (walk (rows_in (file_in file.now)))) rules.new) }
{
    // A tree has a root, as its call says.
    let _count = file.parsed.tree.count();
    let kinds = kinds_of(alloc, file, rules)?;
    let mut path: Vec<u32> = Vec::new(alloc);
    walk_from(alloc, file, rules, kinds.as_slice(), &mut path, 0)?;
    Ok(())
}
