//! How a run works, and which report it writes (decision 192).

ghost use Rattle.std.specs.Prelude.{◌≤◌, ◌<◌};
ghost use Rattle.lit_desk.specs.declared.limits.TheConstants.{MOST_SEATS};
ghost use Rattle.lit_paths.specs.declared.limits.TheConstants.{CHOICE_LIMIT};

/// How the work is done, and which report the caller wants. Neither the number of workers nor the cutting changes the answer.
#[derive(Clone, Copy, Debug, PartialEq, Eq)]
pub struct Options {
    /// How many workers search: 1 to `MOST_SEATS` of `lit_desk`, 16.
    pub workers: usize,
    /// How many choices a piece of the work has at the least: 1 to `CHOICE_LIMIT` of `lit_paths`, 2^48. A worker alone has one
    /// piece; several have at most 16 or 64, or 256 where each piece has its own sources of observed bytes (decision 63).
    pub cut: u64,
    /// Whether the report is the quick one: of each class of outcomes the first choice alone.
    pub quick: bool,
    ghost some_workers: { 0 < workers },
    ghost few_workers: { workers ≤ MOST_SEATS },
    ghost some_cut: { 0 < cut },
    ghost small_cut: { cut ≤ CHOICE_LIMIT },
}
