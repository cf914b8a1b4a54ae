//! How many attempts each clause of a valid execution refuses, each by the first of its cases.

ghost use Rattle.std.specs.Prelude.{◌<◌, length};
ghost use Rattle.lit_paths.specs.Choice.{choices_of};

use crate::clauses::{CLAUSE_COUNT, Clause};
use crate::scene::Scene;
use crate::statements::Statements;
use lit_paths::Plan;
use lit_why::{Attempt, Case, cover_of};
use std::alloc::{AllocError, Global};
use std::io;
use std::io::Write;

/// How many cases of an attempt are looked at, at the most.
const CASE_LIMIT: usize = 100;

/// An attempt with the first of its cases.
#[derive(Clone, Copy)]
pub(crate) struct Told {
    /// The clause that refuses it, by the first of its cases.
    pub clause: Clause,
    /// The attempt.
    pub attempt: Attempt,
    /// The first of its cases; none where the attempt is told by its least choice.
    pub case: Option<Case>,
    /// How many cases were found.
    pub cases: usize,
    /// Whether these are all.
    pub whole: bool,
}

impl Told {
    /// The scene of the first case.
    pub(crate) fn scene<'p>(&self, plan: &'p Plan<'p>, statements: &'p Statements) -> Scene<'p>
        requires { self.now.attempt.choice < length (choices_of plan.now) }
    {
        let choice = self.attempt.choice;
        match &self.case {
            Some(case) => Scene::of_case(plan, statements, choice, case),
            None => Scene::new(plan, statements, choice),
        }
    }

    /// Puts how many cases there are, where that is not one.
    pub(crate) fn put_cases(&self, buffer: &mut Vec<u8>) -> io::Result<()> {
        match (self.case, self.whole) {
            (Some(_), false) => writeln!(buffer, "  the first of more than {} cases:", self.cases),
            (Some(_), true) if self.cases > 1 => {
                writeln!(buffer, "  the first of {} cases:", self.cases)
            }
            _ => Ok(()),
        }
    }
}

/// How many attempts a clause refuses, and the first of them.
#[derive(Clone, Copy)]
pub(crate) struct ClauseCount {
    pub count: u64,
    pub first: Option<Told>,
}

/// A count for each clause, in the order in which the clauses are checked.
#[derive(Drop)]
pub(crate) struct Tally {
    counts: [ClauseCount; CLAUSE_COUNT],
}

impl Tally {
    /// No attempts.
    fn new() -> Self {
        let none = ClauseCount {
            count: 0,
            first: None,
        };
        Tally {
            counts: [none; CLAUSE_COUNT],
        }
    }

    /// Counts an attempt.
    fn count(
        &mut self,
        alloc: Global,
        plan: &Plan<'_>,
        statements: &Statements,
        attempt: Attempt,
    ) -> Result<(), AllocError> {
        if attempt.choice >= plan.total() {
            return Ok(());
        }
        let cover = cover_of(alloc, plan, attempt.choice, CASE_LIMIT)?;
        let case = cover.cases.first().copied();
        let refusal = match case {
            Some(case) => Some(case.refusal),
            None => Scene::new(&*plan, statements, attempt.choice).refusal,
        };
        let Some(refusal) = refusal else {
            return Ok(());
        };
        let clause = Clause::of(refusal);
        let counted = &mut self.counts[clause.place()];
        counted.count = counted.count.saturating_add(1);
        if counted.first.is_none() {
            counted.first = Some(Told {
                clause,
                attempt,
                case,
                cases: cover.cases.len(),
                whole: cover.whole,
            });
        }
        Ok(())
    }

    /// Counts the first attempts, so many.
    pub(crate) fn count_all(
        alloc: Global,
        plan: &Plan<'_>,
        statements: &Statements,
        attempts: &[Attempt],
        most: usize,
    ) -> Result<Self, AllocError> {
        let mut tally = Tally::new();
        for attempt in attempts.iter().take(most) {
            tally.count(alloc, plan, statements, *attempt)?;
        }
        Ok(tally)
    }

    /// The counts, one for each clause.
    pub(crate) fn counts(&self) -> &[ClauseCount] {
        &self.counts
    }
}
