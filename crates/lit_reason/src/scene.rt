//! A choice of a test as the program describes it: its events have names, and the lines of their statements.

ghost use Rattle.std.specs.Prelude.{◌≡◌, ℕ, ◌<◌, ◌++◌, List, MatchOption, OnOk, length};
ghost use Rattle.lit_paths.specs.Choice.{choices_of};
ghost use Rattle.lit_paths.specs.Event.{event_at};
ghost use Rattle.lit_report.specs.EntryText.{event_name as name_of};
ghost use Rattle.lit_rel.specs.Part.{part_events};
ghost use Rattle.lit_valid.specs.Completion.{HasCompletion};
ghost use Rattle.lit_why.specs.Refusal.{IsRefusal};
ghost use Rattle.lit_reason.specs.AnswerText.{IsPartOf};

use crate::guards::guards_of;
use crate::statements::{EventLines, Statements};
use lit_paths::{BYTE_READ_LIMIT, EVENT_LIMIT, Event, Plan, Sources};
use lit_rel::{Between, EventSet, Part, Rows, payload_at};
use lit_solve::{Domains, Problem};
use lit_syntax::Test;
use lit_why::{
    Case, Chain, DerivationLine, Refusal, between_of, chain, derivation, is_box, part_of, refusal,
    relations_of,
};
use std::alloc::{AllocError, Global};
use std::io::Write;
use std::{fmt, io};

/// The name of an event, as it is printed: of a byte of the block, or of an agent's access.
#[derive(Clone, Copy)]
pub(crate) struct EventName<'t> {
    pub test: &'t Test,
    pub event: &'t Event,
}

impl fmt::Display for EventName<'_> {
    ghost use Rattle.std.specs.Prelude.{Some};
    ghost use Rattle.lit_report.specs.EntryText.{event_name};

    ghost output = { λ name. Some (event_name name.test.now name.event.now) };

    fn fmt<W: fmt::Write>(&self, f: &mut fmt::Formatter<W>) -> fmt::Result {
        let place = self.event.place;
        let name = match self.event.owner {
            None => return write!(f, "init[{place}]"),
            Some(agent) if usize::from(agent) < self.test.agents() => {
                self.test.agent_name(usize::from(agent))
            }
            Some(_) => "",
        };
        write!(f, "{name}.{place}")
    }
}

/// A choice of a plan's test, or a case of the attempt that it is of: then some byte reads are open, and the rest is given.
#[derive(Drop)]
pub(crate) struct Scene<'p> {
    pub plan: &'p Plan<'p>,
    /// The combination with the sources of the choice.
    pub part: Part<'p>,
    /// Its sources, in the order of the byte reads; those that are open mean nothing.
    pub sources: Sources,
    /// What refuses it.
    pub refusal: Option<Refusal>,
    /// Of a case, the sources that each byte read has.
    domains: Option<Domains>,
    /// synchronizes-with of what is given.
    pub synchronizes: Rows,
    /// happens-before of what is given.
    pub before: Rows,
    /// What may not stand between a source that is given and its read.
    pub between: Between,
    statements: &'p Statements,
    lines: EventLines,
}

/// The byte that each event of a set stores; `None` where they store several, or there is no event.
fn byte_stored(events: &[Event], sources: EventSet, byte: u8) -> Option<u8> {
    let (first, others) = sources.split_first()?;
    let stored = payload_at(events.get(first)?, byte);
    for (number, event) in events.iter().enumerate() {
        if number < EVENT_LIMIT && others.contains(number) && payload_at(event, byte) != stored {
            return None;
        }
    }
    Some(stored)
}

/// The only event of a set.
fn only_one(set: EventSet) -> Option<u8> {
    match set.split_first() {
        Some((first, others)) if others.is_empty() && first < EVENT_LIMIT => Some(first as u8),
        _ => None,
    }
}

impl<'p> Scene<'p> {
    /// The choice with this number.
    pub(crate) fn new(plan: &'p Plan<'p>, statements: &'p Statements, choice: u64) -> Self
        requires { choice < length (choices_of plan.now) }
        ensures plan { result.plan.now ≡ plan.now }
        ensures part { IsPartOf plan.now choice result.part }
        ensures refusal { MatchOption result.refusal (HasCompletion result.part) (IsRefusal result.part) }
    {
        let part = part_of(plan, choice);
        let sources = plan.sources(choice);
        let refusal = refusal(&part, sources.as_slice());
        let (synchronizes, before, between) = (
            part.synchronizes(),
            part.happens_before(),
            part.between(),
        );
        let lines = statements.lines_of(part.combination());
        Scene {
            plan,
            part,
            sources,
            refusal,
            domains: None,
            synchronizes,
            before,
            between,
            statements,
            lines,
        }
    }

    /// A case of the attempt that the choice with this number is of.
    pub(crate) fn of_case(
        plan: &'p Plan<'p>,
        statements: &'p Statements,
        choice: u64,
        case: &Case,
    ) -> Self
        requires { choice < length (choices_of plan.now) }
    {
        let mut scene = Scene::new(plan, statements, choice);
        let problem = Problem::open(plan, plan.combination(choice));
        if !is_box(&problem, &case.domains) {
            return scene;
        }
        let relations = relations_of(&problem, &case.domains);
        scene.between = between_of(&problem, &case.domains, &relations);
        scene.synchronizes = relations.synchronizes;
        scene.before = relations.before.rows;
        scene.refusal = Some(case.refusal);
        scene.domains = Some(case.domains);
        scene
    }

    /// The source of the byte read at a place; `None` where it is open.
    pub(crate) fn source_at(&self, place: usize) -> Option<u8> {
        match self.domains {
            Some(domains) if place < BYTE_READ_LIMIT => only_one(domains[place]),
            _ => self.sources.get(place).copied(),
        }
    }

    /// A shortest chain of happens-before.
    pub(crate) fn chain_between(&self, from: u8, to: u8) -> Option<Chain> {
        let events = self.part.combination().events();
        // `chain` needs as many events; the relations of a scene have them.
        if self.synchronizes.len() != events.len() {
            return None;
        }
        chain(events, &self.synchronizes, from, to)
    }

    /// A derivation that there is no memory-order.
    pub(crate) fn cycle(&self, alloc: Global) -> Result<Option<Vec<DerivationLine>>, AllocError> {
        // `derivation` needs as many events; the relations of a scene have them.
        if self.before.len() != self.between.len() {
            return Ok(None);
        }
        derivation(alloc, &self.before, &self.between)
    }

    /// Whether it is a case, and so may have open bytes.
    pub(crate) fn is_case(&self) -> bool {
        self.domains.is_some()
    }

    /// The value of a read; `None` where the sources of a byte store several.
    pub(crate) fn value(&self, read: u8) -> Option<u32> {
        let Some(domains) = self.domains else {
            return Some(self.part.value(read));
        };
        let (events, reads) = (
            self.part.combination().events(),
            self.part.combination().byte_reads(),
        );
        let mut bytes = [0u8; 4];
        for (place, at) in reads.iter().enumerate() {
            if at.read == read && place < BYTE_READ_LIMIT {
                let stored = byte_stored(events, domains[place], at.byte)?;
                let Some(event) = events.get(usize::from(read)) else {
                    return None;
                };
                let byte = usize::from(at.byte.saturating_sub(event.first));
                if byte < 4 {
                    bytes[byte] = stored;
                }
            }
        }
        Some(u32::from_le_bytes(bytes))
    }

    /// Puts the name of an event, by its number.
    pub(crate) fn put_event(&self, buffer: &mut Vec<u8>, event: u8) -> io::Result<()>
        ensures { OnOk result (event < length (part_events self.now.part)
            → buffer.new.items ≡ buffer.old.items ++ name_of self.now.part.test (event_at (part_events self.now.part) event)) }
    {
        let combination = self.part.combination();
        match combination.events().get(usize::from(event)) {
            Some(event) => write!(
                buffer,
                "{}",
                EventName {
                    test: combination.test(),
                    event
                }
            ),
            None => Ok(()),
        }
    }

    /// The name of an event, by its number.
    pub(crate) fn name_of(&self, alloc: Global, event: u8) -> Result<String, AllocError> {
        match self.part.combination().events().get(usize::from(event)) {
            Some(event) => format!(in alloc;
                "{}",
                EventName {
                    test: self.plan.test(),
                    event
                }
            ),
            None => Ok(String::new(alloc)),
        }
    }

    /// The line of an event's statement; none of an event that makes the block.
    pub(crate) fn line_of(&self, event: u8) -> Option<usize> {
        self.lines.get(usize::from(event)).copied().flatten()
    }

    /// The line of the statement that a guard of an agent's path comes from.
    pub(crate) fn line_of_guard(
        &self,
        alloc: Global,
        agent: usize,
        place: usize,
    ) -> Result<Option<usize>, AllocError> {
        let combination = self.part.combination();
        let guards = guards_of(alloc, combination, agent)?;
        Ok(match guards.get(place) {
            Some(guard) => self.statements.line_of(combination.test(), agent, *guard),
            None => None,
        })
    }

    /// Puts the name of an event, with the line of its statement.
    pub(crate) fn put_placed(&self, buffer: &mut Vec<u8>, event: u8) -> io::Result<()>
        ensures { OnOk result (event < length (part_events self.now.part) → (place : List ℕ)
            × (buffer.new.items ≡ buffer.old.items ++ name_of self.now.part.test (event_at (part_events self.now.part) event) ++ place)) }
    {
        self.put_event(buffer, event)?;
        match self.line_of(event) {
            Some(line) => write!(buffer, " (line {line})"),
            None => Ok(()),
        }
    }

    /// Puts a line for each event that reads, with the sources of its bytes that are given; of a case, a source of several bytes once.
    pub(crate) fn put_sources(&self, buffer: &mut Vec<u8>) -> io::Result<()> {
        let (mut last, mut before) = (None, None);
        for (place, byte) in self.part.combination().byte_reads().iter().enumerate() {
            let Some(source) = self.source_at(place) else {
                continue;
            };
            if last != Some(byte.read) {
                if last.is_some() {
                    buffer.write_all(b"\n")?;
                }
                buffer.write_all(b"  from ")?;
                self.put_event(buffer, byte.read)?;
                (last, before) = (Some(byte.read), None);
            }
            if !self.is_case() || before != Some(source) {
                buffer.write_all(b" ")?;
                self.put_event(buffer, source)?;
            }
            before = Some(source);
        }
        if last.is_some() {
            buffer.write_all(b"\n")?;
        }
        Ok(())
    }
}
