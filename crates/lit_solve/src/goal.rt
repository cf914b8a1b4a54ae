//! The goal of a search.

use lit_valid::Class;

/// Which completions of a box are solutions.
#[derive(Clone, Copy, Debug, PartialEq, Eq)]
pub enum Goal {
    /// Any of them.
    Any,
    /// One with an outcome of a class.
    OfClass(Class),
    /// One with a data race.
    Race,
}
