//! Which selectors of which rules may match nodes of a kind.
ghost use Rattle.std.specs.Prelude.{ℕ, ◌≡◌, ◌≢◌, ◌<◌, ◌≤◌, List, [], ◌++◌, All, length, map, slice_get, Some, IfOk, OnOk, IsTrue};
ghost use Rattle.es_tree.specs.Rows.{Row, kind_of};
ghost use Rattle.es_selectors.specs.declared.selector.Spelling.{Spelling};
ghost use Rattle.es_settings.specs.Settings.{options_of, setting_of};
ghost use Rattle.es_host.specs.Files.{File, file_in};
ghost use Rattle.es_host.specs.Hearing.{EachHeard};
ghost use Rattle.es_host.specs.Lawful.{told_at};
ghost use Rattle.es_host.specs.Listeners.{AreKinds, ServeAll, told_by, told_by_one};
ghost use Rattle.es_host.specs.Meanings.{Event, Fits, is_on};
ghost use Rattle.es_host.specs.Walk.{Moment};

use crate::file::FileView;
use crate::rule::Rule;
use es_selectors::Selector;
use es_settings::RuleSetting;
use es_text::{Items, NoMemory};
use es_tree::Tree;
use std::alloc::Global;

/// A selector, by the place of its rule and its index in the rule's interest.
#[derive(Clone, Copy)]
pub struct Listener {
    pub rule: usize,
    pub which: u32,
}

/// Puts the listener behind the others, if its selector may match nodes of this kind.
fn add_listener(
    selector: &Selector,
    kind: u16,
    listener: Listener,
    listeners: &mut Vec<Listener>,
) -> Result<(), NoMemory>
    ensures own { OnOk result ((rows : List Row) (interest : List Spelling) (moment : Moment) (place : ℕ) →
        kind_of rows moment.node ≡ Some kind → slice_get interest listener.which ≡ Some selector.now
        → told_by rows interest moment place listeners.new.items
        ≡ told_by rows interest moment place listeners.old.items ++ told_by_one rows interest moment place listener) }
    ensures others { OnOk result ((rows : List Row) (interest : List Spelling) (moment : Moment) (place : ℕ) → place ≢ listener.rule
        → told_by rows interest moment place listeners.new.items ≡ told_by rows interest moment place listeners.old.items) }
    ensures rules { OnOk result ((count : ℕ) → listener.rule < count
        → All (λ one. one.rule < count) listeners.old.items
        → All (λ one. one.rule < count) listeners.new.items) }
{
    if !selector.by_kind(kind) {
        return Ok(());
    }
    listeners.push(listener)?;
    Ok(())
}

/// Puts those of the selectors behind the listeners that may match nodes of this kind.
fn add_listeners(
    interest: &[Selector],
    rule: usize,
    kind: u16,
    listeners: &mut Vec<Listener>,
) -> Result<(), NoMemory>
    ensures own { OnOk result ((rows : List Row) (moment : Moment) → kind_of rows moment.node ≡ Some kind
        → told_by rows interest.now moment rule listeners.new.items
        ≡ told_by rows interest.now moment rule listeners.old.items ++ told_at rows interest.now moment) }
    ensures others { OnOk result ((rows : List Row) (wanted : List Spelling) (moment : Moment) (place : ℕ) → place ≢ rule
        → told_by rows wanted moment place listeners.new.items ≡ told_by rows wanted moment place listeners.old.items) }
    ensures rules { OnOk result ((count : ℕ) → rule < count
        → All (λ listener. listener.rule < count) listeners.old.items
        → All (λ listener. listener.rule < count) listeners.new.items) }
{
    for i in 0..interest.len() {
        let Ok(which) = u32::try_from(i) else {
            return Err(NoMemory);
        };
        add_listener(&interest[i], kind, Listener { rule, which }, listeners)?;
    }
    Ok(())
}

/// Puts those of the rule's selectors behind the listeners that may match nodes of this kind, if it is on.
fn add_rule<R: Rule>(
    setting: &RuleSetting,
    rule: &R,
    place: usize,
    kind: u16,
    listeners: &mut Vec<Listener>,
) -> Result<(), NoMemory>
    ensures own { OnOk result (IsTrue (is_on (setting_of setting.now)) → (file : File) (events : List Event) →
        R.heard rule.now file (options_of setting.now.options) events →
        (rows : List Row) (moment : Moment) → kind_of rows moment.node ≡ Some kind
        → told_by rows ((R.meaning rule.now).interest (options_of setting.now.options)) moment place listeners.new.items
        ≡ told_by rows ((R.meaning rule.now).interest (options_of setting.now.options)) moment place listeners.old.items
        ++ told_at rows ((R.meaning rule.now).interest (options_of setting.now.options)) moment) }
    ensures others { OnOk result ((rows : List Row) (interest : List Spelling) (moment : Moment) (other : ℕ) → other ≢ place
        → told_by rows interest moment other listeners.new.items ≡ told_by rows interest moment other listeners.old.items) }
    ensures rules { OnOk result ((count : ℕ) → place < count
        → All (λ listener. listener.rule < count) listeners.old.items
        → All (λ listener. listener.rule < count) listeners.new.items) }
{
    if setting.severity.is_none() {
        return Ok(());
    }
    add_listeners(rule.interest(), place, kind, listeners)
}

/// The selectors of the rules that are on which may match nodes of this kind: rule by rule in their order,
/// and those of a rule in the order of its interest.
fn listeners_of<R: Rule>(
    alloc: Global,
    file: &FileView,
    rules: &[R],
    kind: u16,
) -> Result<Vec<Listener>, NoMemory>
    requires fits { Fits (map R.meaning rules.now) (file_in file.now) }
    requires begun { EachHeard R.heard (file_in file.now) (λ _. []) rules.now }
    ensures serve { IfOk result (λ listeners. ServeAll (map R.meaning rules.now) (file_in file.now) kind listeners.items) }
    ensures rules { IfOk result (λ listeners. All (λ listener. listener.rule < length rules.now) listeners.items) }
{
    let settings = file.config.rules.as_slice();
    let mut listeners = Vec::new(alloc);
    for place in 0..rules.len() {
        add_rule(&settings[place], &rules[place], place, kind, &mut listeners)?;
    }
    Ok(listeners)
}

/// The greatest kind of a node.
fn greatest_kind(tree: &Tree) -> u16
    ensures { (node kind : ℕ) → kind_of tree.now node ≡ Some kind → kind ≤ result }
{
    let mut greatest = 0;
    for node in 0..tree.count() {
        greatest = greatest.max(tree.kind(node));
    }
    greatest
}

/// For each kind the selectors that may match nodes of it.
pub fn kinds_of<R: Rule>(
    alloc: Global,
    file: &FileView,
    rules: &[R],
) -> Result<Vec<Items<Listener>>, NoMemory>
    requires fits { Fits (map R.meaning rules.now) (file_in file.now) }
    requires begun { EachHeard R.heard (file_in file.now) (λ _. []) rules.now }
    ensures { IfOk result (λ kinds. AreKinds (map R.meaning rules.now) (file_in file.now) kinds.items) }
{
    let mut kinds = Vec::new(alloc);
    for kind in 0..greatest_kind(&file.parsed.tree) as u32 + 1 {
        let listeners = listeners_of(alloc, file, rules, kind as u16)?;
        kinds.push(Items::from_vec(listeners))?;
    }
    Ok(kinds)
}
