ghost use Rattle.std.specs.Prelude.{ℕ, ◌≡◌, ◌<◌, false, List, [], ◌∷◌, ◌++◌, All, length, IfOk, OnOk, IsTrue};
ghost use Rattle.std.specs.Str.{chars};
ghost use Rattle.es_text.specs.Texts.{text_bytes};
ghost use Rattle.es_settings.specs.declared.verdict.Verdict.TheVariants.{Fine};
ghost use Rattle.es_settings.specs.Settings.{Options, have_float, options_of};
ghost use Rattle.es_host.specs.Files.{File, IsWhole, file_of, rows_in};
ghost use Rattle.es_host.specs.Lawful.{HeardAll, Lawful, is_asked};
ghost use Rattle.es_host.specs.Meanings.{Event, Meaning};
ghost use Rattle.es_host.specs.Spans.{findings_fit};

use crate::file::Ctx;
use es_selectors::Selector;
use es_settings::Verdict;
use es_text::{Finding, NoMemory};
use serde_json::Value;
use std::alloc::Global;

/// A rule: it hears of the nodes that its selectors match, and then says what it found.
///
/// Options are those behind its severity, and contracts see them as the JSON values that they hold. After
/// `NoMemory` of any call a rule has to begin again.
pub trait Rule: Drop {
    /// Its id, its verdict on options, the selectors that it asks for under options, and what it says of a
    /// file under options. No call changes it.
    ghost meaning: { Self → Meaning };

    /// That it began under these options, and was told these events of the file since.
    ghost heard: { Self → File → Options → List Event → Type 0 };

    fn id(&self) -> &str
        ensures { chars result.now ≡ (meaning self.now).id };

    /// Whether it takes the options. No rule takes a floating-point number.
    fn verdict(&self, alloc: Global, options: &[Value]) -> Result<Verdict, NoMemory>
        ensures verdict { IfOk result (λ verdict. verdict ≡ (meaning self.now).verdict (options_of options.now)) }
        ensures floats { IfOk result (λ verdict. verdict ≡ Fine → have_float (options_of options.now) ≡ false) };

    /// Forgets what was heard, and takes these options.
    fn begin(&mut self, alloc: Global, options: &[Value]) -> Result<(), NoMemory>
        requires fine { (meaning self.old).verdict (options_of options.now) ≡ Fine }
        ensures same { meaning self.new ≡ meaning self.old }
        ensures nothing { OnOk result ((file : File) → heard self.new file (options_of options.now) []) };

    /// The selectors that it asks for, once it has begun.
    fn interest(&self) -> &[Selector]
        ensures { (file : File) (options : Options) (events : List Event) →
            heard self.now file options events → result.now ≡ (meaning self.now).interest options };

    /// The walk enters this node, or leaves it, as the selector at the index `which` of its interest has it.
    fn on_node(&mut self, alloc: Global, ctx: &Ctx, node: u32, which: u32) -> Result<(), NoMemory>
        requires whole { IsWhole (file_of ctx.now) }
        requires node { node < length (rows_in (file_of ctx.now)) }
        requires ancestors { All (λ ancestor. ancestor < length (rows_in (file_of ctx.now))) ctx.now.ancestors.now }
        requires asked { (options : Options) (events : List Event) → heard self.old (file_of ctx.now) options events
            → IsTrue (is_asked (rows_in (file_of ctx.now)) ((meaning self.old).interest options) node which) }
        ensures same { meaning self.new ≡ meaning self.old }
        ensures more { OnOk result ((options : Options) (events : List Event) → heard self.old (file_of ctx.now) options events
            → heard self.new (file_of ctx.now) options
            (events ++ record { node = node; which = which; ancestors = ctx.now.ancestors.now } ∷ [])) };

    /// What the rule found, once it heard all that it asked for.
    fn finish(&mut self, alloc: Global, ctx: &Ctx) -> Result<Vec<Finding>, NoMemory>
        requires whole { IsWhole (file_of ctx.now) }
        requires ancestors { ctx.now.ancestors.now ≡ [] }
        requires heard { HeardAll (file_of ctx.now) (meaning self.old) (heard self.old (file_of ctx.now)) }
        ensures same { meaning self.new ≡ meaning self.old }
        ensures says { (options : Options) (events : List Event) → heard self.old (file_of ctx.now) options events
            → Lawful (file_of ctx.now) ((meaning self.old).interest options) events
            → IfOk result (λ findings. findings.items ≡ (meaning self.old).says (file_of ctx.now) options) }
        ensures inside { IfOk result (λ findings.
            IsTrue (findings_fit (text_bytes (file_of ctx.now).text) findings.items)) };
}

impl Rule for Box<dyn Rule + Send> {
    ghost meaning = { λ rule. (Rule-box rule).meaning rule.value };

    ghost heard = { λ rule. (Rule-box rule).heard rule.value };

    fn id(&self) -> &str {
        (**self).id()
    }

    fn verdict(&self, alloc: Global, options: &[Value]) -> Result<Verdict, NoMemory> {
        (**self).verdict(alloc, options)
    }

    fn begin(&mut self, alloc: Global, options: &[Value]) -> Result<(), NoMemory> {
        (**self).begin(alloc, options)
    }

    fn interest(&self) -> &[Selector] {
        (**self).interest()
    }

    fn on_node(&mut self, alloc: Global, ctx: &Ctx, node: u32, which: u32) -> Result<(), NoMemory> {
        (**self).on_node(alloc, ctx, node, which)
    }

    fn finish(&mut self, alloc: Global, ctx: &Ctx) -> Result<Vec<Finding>, NoMemory> {
        (**self).finish(alloc, ctx)
    }
}
