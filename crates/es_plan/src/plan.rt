use es_settings::Mode;
use es_text::{Items, NoMemory, Txt};

/// How files are to be linted. All names are normalised.
#[derive(Drop)]
pub struct LintPlan {
    /// The configuration's name.
    pub config: Txt,
    /// Whether the output is JSON, in place of ESLint's "stylish" format.
    pub json: bool,
    /// What is done with fixes.
    pub mode: Mode,
    /// Whether warnings aren't printed.
    pub quiet: bool,
    /// The most warnings with which a run ends well.
    pub max_warnings: Option<u32>,
    /// Whether directives in comments are read.
    pub inline: bool,
    /// The names to lint, each once.
    pub names: Items<Txt>,
}

/// What the words ask for.
#[derive(Drop)]
pub enum Plan {
    /// To lint files.
    Lint(LintPlan),
    /// To make a text of so many lines, and lint it.
    Generate { count: u32 },
}

/// Why the words make no plan.
#[derive(Drop)]
pub enum PlanFault {
    /// They aren't words of the command.
    BadWords,
    /// There are more than 10,000 names, which are counted as they are given.
    TooMany { names: u64 },
    /// Out of memory.
    NoMemory,
}

impl From<NoMemory> for PlanFault {
    ghost use Rattle.std.specs.Prelude.{◌≡◌};
    ghost use Rattle.es_plan.specs.declared.plan.PlanFault.{PlanFault};

    ghost from_gives = { λ _ fault. fault ≡ PlanFault.NoMemory };

    fn from(_fault: NoMemory) -> PlanFault {
        PlanFault::NoMemory
    }
}
