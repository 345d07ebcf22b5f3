//! A rule for tests that draws a number at each event.

use es_host::{Ctx, Rule, no_options};
use es_selectors::{Selector, read};
use es_settings::Verdict;
use es_text::{Finding, NoMemory};
use serde_json::Value;
use std::alloc::Global;
use std::sync::Arc;
use std::sync::atomic::{AtomicU64, Ordering};
use std::test::Fail;

/// Says nothing, hears each node as it is entered and as it is left, and draws a number each time.
#[derive(Drop)]
pub(crate) struct Draws {
    selectors: Vec<Selector>,
    /// What all of these rules draw from.
    next: Arc<AtomicU64, Global>,
    /// Whether this one is to draw the odd numbers.
    odd: bool,
    /// How often a number was another one.
    wrong: Arc<AtomicU64, Global>,
}

impl Draws {
    pub(crate) fn new(
        alloc: Global,
        next: &Arc<AtomicU64, Global>,
        odd: bool,
        wrong: &Arc<AtomicU64, Global>,
    ) -> Result<Draws, Fail> {
        let mut selectors = Vec::new(alloc);
        for text in ["*", "*:exit"] {
            if let Ok(selector) = read(alloc, text) {
                selectors.push(selector)?;
            }
        }
        Ok(Draws {
            selectors,
            next: Arc::try_clone(next)?,
            odd,
            wrong: Arc::try_clone(wrong)?,
        })
    }
}

impl Rule for Draws {
    ghost use Rattle.std.specs.Prelude.{[], codes, if◌then◌else◌};
    ghost use Rattle.std.specs.Str.{chars};
    ghost use Rattle.es_host.specs.Nodes.{takes_none};

    ghost meaning = { λ rule. record {
      id = chars (if rule.odd then codes "odds" else codes "evens");
      verdict = takes_none;
      interest = λ options. rule.selectors.items;
      says = λ file options. [];
    } };

    ghost heard = { λ _ _ _ _. Unit {0} };

    fn id(&self) -> &str {
        if self.odd { "odds" } else { "evens" }
    }

    fn verdict(&self, _alloc: Global, options: &[Value]) -> Result<Verdict, NoMemory> {
        Ok(no_options(options))
    }

    fn begin(&mut self, _alloc: Global, _options: &[Value]) -> Result<(), NoMemory> {
        Ok(())
    }

    fn interest(&self) -> &[Selector] {
        self.selectors.as_slice()
    }

    fn on_node(
        &mut self,
        _alloc: Global,
        _ctx: &Ctx,
        _node: u32,
        _which: u32,
    ) -> Result<(), NoMemory> {
        let number = self.next.fetch_add(1, Ordering::SeqCst);
        if (number % 2 == 1) != self.odd {
            self.wrong.fetch_add(1, Ordering::SeqCst);
        }
        Ok(())
    }

    fn finish(&mut self, alloc: Global, _ctx: &Ctx) -> Result<Vec<Finding>, NoMemory> {
        Ok(Vec::new(alloc))
    }
}
