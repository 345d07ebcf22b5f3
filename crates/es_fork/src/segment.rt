ghost use Rattle.std.specs.Prelude.{◌≡◌};
ghost use Rattle.es_fork.specs.Changes.{fresh};

use es_text::Items;
use std::alloc::Global;
use std::marker::Model;

/// The number of a segment, from 1 in order of making. Contracts see the number.
#[derive(Clone, Copy)]
pub struct SegmentId {
    pub number: u32,
}

impl Model for SegmentId {
    ghost use Rattle.std.specs.Prelude.{ℕ};
    ghost use Rattle.std.specs.Coded.{coded_ℕ};

    ghost Value = { ℕ };

    ghost coded = { coded_ℕ };

    ghost view = { λ id. id.number };

    ghost inverse = { λ number. record { number = number } };
}

/// What happens on the way, each with the number of a node of the tree.
#[derive(Clone, Copy, PartialEq, Eq)]
pub enum Label {
    /// The node begins.
    Enter(u32),
    /// The node has ended normally.
    Leave(u32),
    /// A part that has a path of its own is made.
    Made(u32),
}

/// Labels that happen one after another, and the segments of which one may follow.
#[derive(Drop)]
pub struct Segment {
    pub labels: Items<Label>,
    /// No segment stands here twice.
    pub next: Items<SegmentId>,
    /// Whether a walk from the initial segment ends here.
    pub reachable: bool,
}

impl Segment {
    /// A segment without labels and edges.
    pub(crate) fn new(alloc: Global, reachable: bool) -> Segment
        ensures { result ≡ fresh reachable }
    {
        Segment {
            labels: Items::new(alloc),
            next: Items::new(alloc),
            reachable,
        }
    }
}
