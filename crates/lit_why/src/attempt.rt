//! Attempts at an outcome.

/// A combination of paths, and for each read that is asked about a value that the guards of the paths allow, such that the outcome is in a
/// class. Its choices are those whose sources give these reads these values (decision 142).
#[derive(Clone, Copy, Debug, PartialEq, Eq)]
pub struct Attempt {
    /// The number of its first choice.
    pub choice: u64,
    /// How many choices it has: 1 to `CHOICE_LIMIT`.
    pub choices: u64,
}
