//! The classes of outcomes.

/// A class of outcomes, by the test's condition.
#[derive(Clone, Copy, Debug, PartialEq, Eq)]
pub enum Class {
    /// The outcome meets the condition.
    Met,
    /// It does not.
    Unmet,
}
