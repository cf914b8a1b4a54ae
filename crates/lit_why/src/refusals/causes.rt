//! The kinds of refusals of a complete part.

/// Why a byte that a read has from a source is not coherent.
#[derive(Clone, Copy, Debug, PartialEq, Eq)]
pub enum Incoherence {
    /// The read happens before the source.
    ReadFirst,
    /// The event with this number hides the source.
    HiddenBy(u8),
}

/// Why no valid execution has a part's paths and sources.
#[derive(Clone, Copy, Debug, PartialEq, Eq)]
pub enum Refusal {
    /// A guard of a path is false of the value read.
    FalseGuard {
        /// The agent, from 0.
        agent: usize,
        /// The guard's place on its path, from 0.
        place: usize,
    },
    /// An event happens before itself.
    BeforeItself {
        /// Its number.
        event: u8,
    },
    /// A byte is not coherent.
    Incoherent {
        /// The number of its read.
        read: u8,
        /// The byte, from the block's start.
        byte: u8,
        /// The number of its source.
        source: u8,
        /// Why it isn't.
        cause: Incoherence,
    },
    /// A read would be whole from two events.
    Torn {
        /// The number of the read.
        read: u8,
        /// The lesser number of the two.
        source: u8,
        /// The greater.
        other: u8,
    },
    /// There is no memory-order.
    NoOrder,
}
