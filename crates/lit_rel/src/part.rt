//! A combination of paths, with sources for its first byte reads.

pub(crate) mod false_guards;
pub(crate) mod fixed_steps;
pub(crate) mod guarded_bytes;
pub(crate) mod prefix_state;

ghost use Rattle.std.specs.Prelude.{◌≡◌, ◌↔◌, ℕ, ◌-◌, ◌<◌, ◌≤◌, IsTrue, [], ◌∷◌, ◌++◌, length, take};
ghost use Rattle.lit_paths.specs.ByteReads.{byte_reads};
ghost use Rattle.lit_paths.specs.Choice.{combinations_of};
ghost use Rattle.lit_paths.specs.Members.{AreSources};
ghost use Rattle.lit_paths.specs.Event.{event_at as event_of};
ghost use Rattle.lit_paths.specs.Plan.{AreEventsIn};
ghost use Rattle.lit_rel.specs.Between.{Forbids};
ghost use Rattle.lit_rel.specs.Coherent.{HasCoherentReads};
ghost use Rattle.lit_rel.specs.DataRace.{HasDataRace};
ghost use Rattle.lit_rel.specs.Forbidden.{IsForbidden};
ghost use Rattle.lit_rel.specs.HappensBefore.{HappensBefore};
ghost use Rattle.lit_rel.specs.Part.{AreFirstSources, IsComplete, IsNextSource, part_events, with_sources};
ghost use Rattle.lit_rel.specs.ReadsFrom.{ReadsFrom, value_of};
ghost use Rattle.lit_rel.specs.Rows.{Holds, rows_len};
ghost use Rattle.lit_rel.specs.SynchronizesWith.{Synchronizes};
ghost use Rattle.lit_rel.specs.TearFree.{HasTearFreeReads};

use crate::between::Between;
use crate::given::peers::peers_of;
use crate::given::races::has_racing_writes;
use crate::given::relations::{can_synchronize, order_with};
use crate::given::{Given, SourcedByte, SourcedBytes};
use crate::part::fixed_steps::unsourced_order;
use crate::part::prefix_state::PrefixState;
use crate::rows::Rows;
use arrayvec::ArrayVec;
use lit_paths::{BYTE_READ_LIMIT, Combination, Plan, event_at};
use std::marker::Model;

/// A combination of a test's paths, with sources for its first byte reads. Its size is fixed. A clause sees it as the
/// test's value, the combination's number, and the sources given so far.
#[derive(Drop)]
pub struct Part<'p> {
    combination: Combination<'p>,
    /// The byte reads that have a source.
    bytes: SourcedBytes,
    /// The state of each shorter prefix of the sources, from the empty one on: saved, so that `pop` computes nothing again
    /// (decision 15).
    earlier: ArrayVec<PrefixState, BYTE_READ_LIMIT>,
    /// The state of all given sources.
    prefix_state: PrefixState,
}

impl<'p> Model for Part<'p> {
    ghost use Rattle.lit_rel.specs.Part.{PartModel, coded_part};
    ghost use Rattle.lit_rel.specs.Internal.Given.{part_of};
    ghost use Rattle.lit_rel.specs.Internal.PrefixStates.{HasPrefixStates};

    ghost Value = { PartModel };

    ghost coded = { coded_part };

    ghost view = { λ p. part_of p.combination.0 p.combination.1 p.bytes.items };

    ghost invariant = { λ p. HasPrefixStates p.combination.0 p.combination.1 p.bytes.items p.earlier.items p.prefix_state };
}

impl<'p> Part<'p> {
    ghost use Rattle.lit_rel.specs.Broken.{IsBroken};
    ghost use Rattle.lit_rel.specs.Internal.Given.{sources_of};

    /// A combination of a plan's test, by its number: below `combinations`. No byte read has a source yet.
    pub fn open(plan: &'p Plan<'p>, combination: usize) -> Self
        requires { combination < length (combinations_of plan.now) }
        ensures value { result ≡ record { test = plan.now; combination = combination; sources = [] } }
        ensures sound { AreEventsIn result.test.bytes (part_events result) }
    {
        let combination = plan.enter(combination);
        let bytes = SourcedBytes::new();
        let before = unsourced_order(combination.events());
        let prefix_state = PrefixState::new(&combination, bytes.as_slice(), before);
        Part {
            combination,
            bytes,
            earlier: ArrayVec::new(),
            prefix_state,
        }
    }

    /// Its combination.
    pub fn combination(&self) -> &Combination<'p>
        ensures { result.now ≡ (self.now.test, self.now.combination) }
    {
        &self.combination
    }

    /// Gives the next byte read its source, by event number: a candidate of it. Some byte read has no source yet.
    pub fn push(&mut self, source: u8)
        requires { IsNextSource self.old source }
        ensures { self.new ≡ with_sources self.old (self.old.sources ++ source ∷ []) }
    {
        let next = self.combination.byte_reads()[self.bytes.len()];
        let byte = SourcedByte {
            read: next.read,
            byte: next.byte,
            source,
        };
        let before = order_with(self.combination.events(), byte, &self.prefix_state.before);
        self.bytes.push(byte);
        self.earlier.push(self.prefix_state);
        self.prefix_state = PrefixState::new(&self.combination, self.bytes.as_slice(), before);
    }

    /// Takes the last source back. There is one.
    pub fn pop(&mut self)
        requires { 0 < length self.old.sources }
        ensures { self.new ≡ with_sources self.old (take (length self.old.sources - 1) self.old.sources) }
    {
        self.prefix_state = self.earlier[self.bytes.len() - 1];
        self.earlier.pop();
        self.bytes.pop();
    }

    /// Whether no complete choice that begins with its paths and sources belongs to a valid execution, as far as these
    /// show: some event happens before itself, a byte is not coherent, two bytes tear their read, or a guard of a path
    /// is false, of 0 in a register that was not written or of a read all of whose bytes have a source.
    pub fn broken(&self) -> bool
        ensures { IsTrue result ↔ IsBroken self.now }
    {
        self.prefix_state.broken
    }

    /// How many sources are given. Each is a candidate of its byte read, so where each byte read has one they are sources of them all.
    pub fn len(&self) -> usize
        ensures value { result ≡ length self.now.sources }
        ensures few { result ≤ length (byte_reads (part_events self.now)) }
        ensures candidates { AreFirstSources self.now }
        ensures all { IsComplete self.now → AreSources (part_events self.now) self.now.sources }
    {
        self.bytes.len()
    }

    /// How many byte reads there are in all.
    pub fn reads(&self) -> usize
        ensures { result ≡ length (byte_reads (part_events self.now)) }
    {
        self.combination.byte_reads().len()
    }

    /// Its events, and the byte reads that have a source.
    fn given(&self) -> Given<'_>
        ensures events { result.events.now ≡ part_events self.now }
        ensures sources { sources_of result.bytes.now ≡ self.now.sources }
        ensures small { (n : ℕ) → (event_of result.events.now n).size ≤ 4 }
    {
        Given {
            events: self.combination.events(),
            bytes: self.bytes.as_slice(),
        }
    }

    /// reads-from (ECMA-262, 2024, 29.6.3), as pairs of a read and a source, of the sources given.
    pub fn reads_from(&self) -> Rows
        ensures len { rows_len result ≡ length (part_events self.now) }
        ensures pairs { (r w : ℕ) → Holds result r w ↔ ReadsFrom (part_events self.now) self.now.sources r w }
    {
        let given = self.given();
        let mut rows = Rows::new(given.events.len());
        for byte in given.bytes {
            rows.put(usize::from(byte.read), usize::from(byte.source));
        }
        rows
    }

    /// synchronizes-with (29.6.5), as pairs of a write and a read, of the sources given.
    pub fn synchronizes(&self) -> Rows
        ensures len { rows_len result ≡ length (part_events self.now) }
        ensures pairs { (w r : ℕ) → Holds result w r ↔ Synchronizes (part_events self.now) self.now.sources w r }
    {
        let given = self.given();
        let mut rows = Rows::new(given.events.len());
        for byte in given.bytes {
            let (source, read) = (usize::from(byte.source), usize::from(byte.read));
            if can_synchronize(event_at(given.events, source), event_at(given.events, read)) {
                rows.put(source, read);
            }
        }
        rows
    }

    /// happens-before (29.6.6) of the sources given.
    pub fn happens_before(&self) -> Rows
        ensures len { rows_len result ≡ length (part_events self.now) }
        ensures pairs { (e d : ℕ) → Holds result e d ↔ HappensBefore (part_events self.now) self.now.sources e d }
    {
        self.prefix_state.before.rows
    }

    /// Whether the reads are coherent (29.7.2), as far as sources are given.
    pub fn coherent(&self) -> bool
        ensures { IsTrue result ↔ HasCoherentReads (part_events self.now) self.now.sources }
    {
        !self.given().has_incoherent_byte(&self.prefix_state.before)
    }

    /// Whether the reads are tear free (29.7.3), as far as sources are given.
    pub fn tear_free(&self) -> bool
        ensures { IsTrue result ↔ HasTearFreeReads (part_events self.now) self.now.sources }
    {
        !self.given().has_torn_read()
    }

    /// What may not stand between each source given and its read in the order of memory (29.7.4).
    pub fn between(&self) -> Between
        ensures len { result.len ≡ length (part_events self.now) }
        ensures triples { (w r v : ℕ) → Forbids result w r v ↔ IsForbidden (part_events self.now) self.now.sources w r v }
    {
        let given = self.given();
        given.between(&self.prefix_state.before, &peers_of(given.events))
    }

    /// Whether two events are in a data race (29.9), by the sources given.
    pub fn race(&self) -> bool
        ensures { IsTrue result ↔ HasDataRace (part_events self.now) self.now.sources }
    {
        let (given, before) = (self.given(), &self.prefix_state.before.rows);
        given.has_racing_read(before) || has_racing_writes(given.events, before)
    }

    /// The value of a read (29.5.4 and 29.5.5), by its event number, from the bytes that have a source.
    pub fn value(&self, read: u8) -> u32
        ensures { result ≡ value_of (part_events self.now) self.now.sources read }
    {
        self.given().value(usize::from(read))
    }
}
