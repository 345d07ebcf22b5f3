use crate::segment::SegmentId;
use es_text::{Items, NoMemory};

/// Places where a graph goes on side by side, copy by copy: from 1 to 64 segments, all distinct.
#[derive(Drop)]
pub struct Fork {
    pub heads: Items<SegmentId>,
}

#[derive(Clone, Copy, Debug, PartialEq, Eq)]
pub enum ForkFault {
    /// The parts have more than 64 heads together: this many.
    TooWide { copies: u32 },
    NoMemory,
}

impl From<NoMemory> for ForkFault {
    ghost use Rattle.std.specs.Prelude.{◌≡◌};
    ghost use Rattle.es_fork.specs.declared.fork.ForkFault.TheVariants as fault;

    ghost from_gives = { λ _ made. made ≡ fault.NoMemory };

    fn from(_error: NoMemory) -> ForkFault {
        ForkFault::NoMemory
    }
}
