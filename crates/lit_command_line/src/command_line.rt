//! What the words of the command line ask for.

use lit_options::Options;

/// What the words of the command line ask for.
#[derive(Clone, Copy, Debug, PartialEq, Eq)]
pub struct Line<'a> {
    /// How the work is done, and which report the words ask for.
    pub options: Options,
    /// The schedule whose outcome the words ask for in place of a report.
    pub schedule: Option<&'a str>,
    /// The file that holds the text; standard input where there is none.
    pub file: Option<&'a str>,
}
