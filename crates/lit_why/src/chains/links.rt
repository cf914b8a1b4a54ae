//! Chains of happens-before, as lists of links.

use arrayvec::ArrayVec;
use lit_paths::EVENT_LIMIT;

/// The kind of one step of happens-before.
#[derive(Clone, Copy, Debug, Default, PartialEq, Eq)]
pub enum StepKind {
    /// agent-order: both are in one event list, the first one earlier.
    #[default]
    AgentOrder,
    /// synchronizes-with: the second reads from the first, both are sequentially consistent, and their ranges are equal.
    SynchronizesWith,
    /// The first is the init event of a byte in the range of the second.
    MadeBefore,
}

/// A step of a chain.
#[derive(Clone, Copy, Debug, Default, PartialEq, Eq)]
pub struct Link {
    /// The number of the event that it leads to.
    pub to: u8,
    /// Its kind: of several, the one that `StepKind` has first.
    pub kind: StepKind,
}

/// A chain from one event to another, of at least one link.
#[derive(Drop)]
pub struct Chain {
    /// Each leads from the event that the one before it leads to.
    pub links: ArrayVec<Link, EVENT_LIMIT>,
}
