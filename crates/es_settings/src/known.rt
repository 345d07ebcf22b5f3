ghost use Rattle.std.specs.Prelude.{◌≡◌, ◌<◌, ℕ, false, List, length, IfOk, MatchOption};
ghost use Rattle.std.specs.Str.{chars};
ghost use Rattle.es_settings.specs.declared.verdict.Verdict.{Verdict};
ghost use Rattle.es_settings.specs.declared.verdict.Verdict.TheVariants.{Fine};
ghost use Rattle.es_settings.specs.Rules.{IsFirstAt, StandsNowhere};
ghost use Rattle.es_settings.specs.Settings.{Options, have_float, options_of};

use crate::verdict::Verdict;
use es_text::NoMemory;
use serde_json::Value;
use std::alloc::Global;

/// The rules that a configuration may name, at places that count from 0.
pub trait Known {
    /// The ids of the rules, in characters, in their order.
    ghost ids: { Self → List (List ℕ) };

    /// What the rule at a place has to say of options for it.
    ghost verdict: { Self → ℕ → Options → Verdict };

    /// How many rules there are.
    fn count(&self) -> u32
        ensures { result ≡ length (ids self.now) };

    /// The first place of the id; `None` where no rule has it.
    fn place(&self, id: &str) -> Option<u32>
        ensures { MatchOption result (StandsNowhere (ids self.now) (chars id.now))
            (IsFirstAt (ids self.now) (chars id.now)) };

    /// What the rule at this place has to say of the options. No rule takes a floating-point number.
    fn verdict(&self, alloc: Global, place: u32, options: &[Value]) -> Result<Verdict, NoMemory>
        requires { place < length (ids self.now) }
        ensures verdict { IfOk result (λ given. given ≡ verdict self.now place (options_of options.now)) }
        ensures floats { IfOk result (λ given. given ≡ Fine → have_float (options_of options.now) ≡ false) };
}
