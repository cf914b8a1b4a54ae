//! The lines of a derivation.

/// Why the event `before` of a line comes before its event `after` in every memory-order. Lines
/// are cited by their places in the list, from 0.
#[derive(Clone, Copy, Debug, PartialEq, Eq)]
pub enum Reason {
    /// `before` happens before `after`.
    HappensBefore,
    /// By transitivity, through an event between the two.
    Joined {
        /// The line that has `before` before the event between.
        first: usize,
        /// The line that has that event before `after`.
        second: usize,
    },
    /// `after` is a source, `before` may not stand between it and its read, and `before` comes before the read.
    BeforeSource {
        /// The number of the read.
        read: u8,
        /// The line that has `before` before the read.
        earlier: usize,
    },
    /// `before` is a read, `after` may not stand between its source and it, and `after` comes after the source.
    AfterRead {
        /// The number of the source.
        source: u8,
        /// The line that has the source before `after`.
        earlier: usize,
    },
}

/// That one event comes before another in every memory-order.
#[derive(Clone, Copy, Debug, PartialEq, Eq)]
pub struct DerivationLine {
    /// The number of the first event.
    pub before: u8,
    /// The number of the second event.
    pub after: u8,
    /// Why the first comes before the second.
    pub reason: Reason,
}
