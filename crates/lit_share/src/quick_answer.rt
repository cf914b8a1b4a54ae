//! The quick answer on a test.

use lit_search::Example;

/// The least choice of a valid execution whose outcome meets the condition, with its least memory-order, and the least
/// of one whose outcome does not.
#[derive(Debug, PartialEq, Eq, Drop)]
pub struct Quick {
    pub met: Option<Example>,
    pub unmet: Option<Example>,
}
