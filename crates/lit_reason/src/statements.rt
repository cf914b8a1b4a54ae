//! The lines of a text on which its statements begin.

use lit_paths::{Combination, EVENT_LIMIT};
use lit_read::statement_lines;
use lit_syntax::{Test, statement_count};
use std::alloc::{AllocError, Global};

/// The line, from 1, of each event of a combination, by number; none of an event that makes the block.
pub(crate) type EventLines = [Option<usize>; EVENT_LIMIT];

/// The line, from 1, of each statement of a text, in the order in which they are written.
#[derive(Drop)]
pub(crate) struct Statements {
    lines: Vec<usize>,
}

impl Statements {
    /// The lines of the statements of a text.
    pub(crate) fn of(alloc: Global, text: &[u8]) -> Result<Self, AllocError> {
        let lines = statement_lines(alloc, text)?;
        Ok(Statements { lines })
    }

    /// How many statements the agents before one have.
    fn count_before(test: &Test, agent: usize) -> usize {
        let mut before: usize = 0;
        for earlier in 0..agent.min(test.agents()) {
            before = before.saturating_add(statement_count(test.body(earlier)));
        }
        before
    }

    /// The line of an agent's statement, by its number.
    pub(crate) fn line_of(&self, test: &Test, agent: usize, statement: usize) -> Option<usize> {
        let before = Statements::count_before(test, agent);
        self.lines.get(before.saturating_add(statement)).copied()
    }

    /// The line of each event of a combination of the text's test.
    pub(crate) fn lines_of(&self, combination: &Combination<'_>) -> EventLines {
        let test = combination.test();
        let mut lines = [None; EVENT_LIMIT];
        for agent in 0..test.agents() {
            let first = usize::from(combination.first_event(agent));
            for (place, statement) in combination.statements(agent).iter().enumerate() {
                let event = first.saturating_add(place);
                if event < EVENT_LIMIT {
                    lines[event] = self.line_of(test, agent, *statement);
                }
            }
        }
        lines
    }
}
