use es_fork::Label;
use es_text::NoMemory;

/// Why a skeleton has no graph.
#[derive(Clone, Copy)]
pub enum SkeletonFault {
    /// This label, the first, would stand in more than 64 copies of finalizers: in so many.
    TooWide { label: Label, copies: u32 },
    NoMemory,
}

impl From<NoMemory> for SkeletonFault {
    ghost use Rattle.std.specs.Prelude.{◌≡◌};
    ghost use Rattle.es_skeleton.specs.declared.fault.SkeletonFault.TheVariants as fault;

    ghost from_gives = { λ _ made. made ≡ fault.NoMemory };

    fn from(_error: NoMemory) -> SkeletonFault {
        SkeletonFault::NoMemory
    }
}
