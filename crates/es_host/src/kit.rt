ghost use Rattle.std.specs.Prelude.{ℕ, List, ◌≡◌, ◌<◌, ◌+◌, ◌-◌, ◌^◌, length, map, min, option_map, slice_get, IfOk, IsTrue, Some};
ghost use Rattle.std.specs.Str.{chars};
ghost use Rattle.es_text.specs.Texts.{text_bytes};
ghost use Rattle.es_host.specs.Files.{IsWhole, file_in};
ghost use Rattle.es_host.specs.Kits.{meanings_of};
ghost use Rattle.es_host.specs.Meanings.{Fits};
ghost use Rattle.es_host.specs.Reports.{kit_says};
ghost use Rattle.es_host.specs.Spans.{fixes_fit, reports_fit};

use crate::begin::begin_all;
use crate::file::{Ctx, FileView};
use crate::report::report_all;
use crate::rule::Rule;
use crate::walk::walk;
use es_settings::{Known, Verdict};
use es_text::{NoMemory, Report};
use serde_json::Value;
use std::alloc::Global;
use std::marker::Model;

/// Rules in an order of their own, and how often they were made to listen. No call hands a rule out.
///
/// Contracts see the list of the rules and the number.
#[derive(Drop)]
pub struct Kit<R> {
    rules: Vec<R>,
    lints: u64,
}

impl<R> Model for Kit<R> {
    ghost use Rattle.es_host.specs.Kits.{KitOf, kit_code};
    ghost use Rattle.std.specs.Prelude.{◌<◌, ◌^◌, length};

    ghost Value = { KitOf R };

    ghost coded = { kit_code R.code };

    ghost view = { λ kit. record { rules = kit.rules.items; lints = kit.lints } };

    ghost invariant = { λ kit. length kit.rules.items < 2 ^ 32 };
}

impl<R: Rule> Kit<R> {
    /// A kit of these rules, which hasn't listened yet.
    pub fn new(rules: Vec<R>) -> Kit<R>
        requires { length rules.items < 2 ^ 32 }
        ensures rules { result.rules ≡ rules.items }
        ensures lints { result.lints ≡ 0 }
    {
        Kit { rules, lints: 0 }
    }

    /// The id of the rule at this place, from 0.
    pub fn id(&self, place: u32) -> &str
        requires { place < length self.now.rules }
        ensures { option_map (λ rule. (R.meaning rule).id) (slice_get self.now.rules place) ≡ Some (chars result.now) }
    {
        self.rules[place as usize].id()
    }

    /// How many calls of `listen` there were, up to the greatest number.
    pub fn lints(&self) -> u64
        ensures { result ≡ self.now.lints }
    {
        self.lints
    }
}

/// What the rules of the kit say of a file, rule by rule in the kit's order, each at the severity that is
/// set for it. A rule that is off says nothing.
///
/// All rules that are on begin anew and hear one walk: of each node that the walk enters or leaves, each
/// rule is told, in the kit's order, before the walk goes on. After `NoMemory` the kit may listen again.
pub fn listen<R: Rule>(
    alloc: Global,
    file: &FileView,
    kit: &mut Kit<R>,
) -> Result<Vec<Report>, NoMemory>
    requires whole { IsWhole (file_in file.now) }
    requires fits { Fits (meanings_of R.meaning kit.old) (file_in file.now) }
    ensures reports { IfOk result (λ reports. reports.items ≡ kit_says (meanings_of R.meaning kit.old) (file_in file.now)) }
    ensures inside { IfOk result (λ reports. IsTrue (reports_fit (text_bytes (file_in file.now).text) reports.items)) }
    ensures fixes { IfOk result (λ reports. IsTrue (fixes_fit (text_bytes (file_in file.now).text) reports.items)) }
    ensures same { meanings_of R.meaning kit.new ≡ meanings_of R.meaning kit.old }
    ensures lints { kit.new.lints ≡ min (kit.old.lints + 1) (2 ^ 64 - 1) }
{
    kit.lints = kit.lints.saturating_add(1);
    let rules = kit.rules.as_mut_slice();
    begin_all(alloc, file, rules)?;
    walk(alloc, file, rules)?;
    let ctx = Ctx {
        file,
        ancestors: &[],
    };
    report_all(alloc, &ctx, rules)
}

impl<R: Rule> Known for Kit<R> {
    ghost use Rattle.std.specs.Prelude.{map};
    ghost use Rattle.es_host.specs.Kits.{meanings_of};
    ghost use Rattle.es_host.specs.Meanings.{meaning_at};

    ghost ids = { λ kit. map (λ meaning. meaning.id) (meanings_of R.meaning kit) };

    ghost verdict = { λ kit place options. (meaning_at (meanings_of R.meaning kit) place).verdict options };

    fn count(&self) -> u32 {
        self.rules.len() as u32
    }

    fn place(&self, id: &str) -> Option<u32> {
        for place in 0..self.rules.len() {
            if self.rules[place].id() == id {
                return Some(place as u32);
            }
        }
        None
    }

    fn verdict(&self, alloc: Global, place: u32, options: &[Value]) -> Result<Verdict, NoMemory> {
        self.rules[place as usize].verdict(alloc, options)
    }
}
