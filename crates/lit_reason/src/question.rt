//! What can be asked of a litmus test.

use lit_search::Class;

/// How many attempts are looked at where nothing else is asked for.
pub const MOST: usize = 1_000;

/// The largest number of attempts that may be asked for.
pub const MOST_LIMIT: usize = 1_000_000;

/// A question on a litmus test.
#[derive(Clone, Copy, Debug, PartialEq, Eq)]
pub enum Question<'a> {
    /// Why no valid execution has an outcome in a class, or an example where one has.
    InClass(Class),
    /// The first data race.
    Race,
    /// What refuses the choice with this number, or its memory-order.
    OfChoice(u64),
    /// The same of the choice that these words select, each `EVENT=SOURCE[,SOURCE..]` or `AGENT.rN=VALUE`, parted by blanks.
    OfSources(&'a str),
}

/// A question, and how it is answered.
#[derive(Clone, Copy, Debug, PartialEq, Eq)]
pub struct Asked<'a> {
    pub question: Question<'a>,
    /// A condition in place of the text's.
    pub condition: Option<&'a str>,
    /// How many attempts are looked at, at the most.
    pub most: usize,
    /// Whether the answer is a line of JSON.
    pub json: bool,
}
