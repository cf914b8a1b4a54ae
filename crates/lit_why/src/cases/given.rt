//! What is given in a box, which are the byte reads whose domain has one source, and the relations that follow from it alone.

ghost use Rattle.std.specs.Prelude.{◌≡◌, ◌⊎◌, ◌↔◌, ℕ, ◌+◌, ◌<◌, ◌≤◌, IsTrue, MatchOption, Some, length, slice_get};
ghost use Rattle.lit_paths.specs.ByteReads.{byte_reads, pair_of};
ghost use Rattle.lit_paths.specs.Choice.{combinations_of};
ghost use Rattle.lit_paths.specs.Event.{event_at as event_of};
ghost use Rattle.lit_paths.specs.declared.limits.TheConstants.{BYTE_READ_LIMIT};
ghost use Rattle.lit_rel.specs.Between.{Forbids};
ghost use Rattle.lit_rel.specs.Peers.{ArePeers};
ghost use Rattle.lit_rel.specs.ReadsFrom.{ReadsFromBy};
ghost use Rattle.lit_rel.specs.Rows.{Holds, rows_len};
ghost use Rattle.lit_rel.specs.SynchronizesWith.{CanSynchronize};
ghost use Rattle.lit_solve.specs.Box.{IsBox, box_with, events_on};
ghost use Rattle.lit_solve.specs.Given.{GivenIn, HappensBeforeIn, HasAlone, IsForbiddenIn};
ghost use Rattle.lit_solve.specs.Internal.Frames.{IsForbiddenAt};
ghost use Rattle.lit_why.specs.Internal.Relations.{AreRelationsOf, IsGivenAt};

use crate::chains::steps::steps_of;
use lit_paths::{ByteRead, Event, event_at};
use lit_rel::laws::byte_reads_are_of_events;
use lit_rel::{Between, Rows, TwoWayRows, can_synchronize, others_between, peers_of};
use lit_solve::{Domains, Problem, candidates_of};

/// Relations of what is given in a box.
#[derive(Drop)]
pub struct Relations {
    /// reads-from, a read before its source.
    pub reads: Rows,
    /// synchronizes-with.
    pub synchronizes: Rows,
    /// happens-before.
    pub before: TwoWayRows,
}

/// The only source of the byte read at a place; `None` if it has none or several.
pub(crate) fn given_source(problem: &Problem<'_>, domains: &Domains, place: usize) -> Option<usize>
    requires place { place < length (byte_reads (events_on problem.now)) }
    requires is_box { IsBox (box_with problem.now domains.now) }
    ensures { MatchOption result ((w : ℕ) → ¬ HasAlone (box_with problem.now domains.now) place w)
        (λ w. HasAlone (box_with problem.now domains.now) place w × (w < length (events_on problem.now))) }
{
    // Tells the prover that there are few byte reads, so that each has a place in the domains.
    let _events = problem.combination().events();
    let (source, others) = domains[place].split_first()?;
    if others.is_empty() {
        Some(source)
    } else {
        None
    }
}

/// Whether each source of a domain is a candidate of its byte read, as in the boxes of cases. The problem's combination is one of its test.
pub fn is_box(problem: &Problem<'_>, domains: &Domains) -> bool
    requires { problem.now.1 < length (combinations_of problem.now.0) }
    ensures { IsTrue result ↔ IsBox (box_with problem.now domains.now) }
{
    let combination = problem.combination();
    // Tells the prover that the test is one that a text can spell, and that each byte read has a place in the domains.
    let _agents = combination.test().agents();
    let _events = combination.events();
    for place in 0..combination.byte_reads().len() {
        if !domains[place].is_within(candidates_of(combination, place)) {
            return false;
        }
    }
    true
}

/// The byte read at a place.
pub(crate) fn byte_read(problem: &Problem<'_>, place: usize) -> ByteRead
    requires { place < length (byte_reads (events_on problem.now)) }
    ensures at { slice_get (byte_reads (events_on problem.now)) place ≡ Some (pair_of result) }
    ensures read { result.read < length (events_on problem.now) }
{
    byte_reads_are_of_events();
    problem.combination().byte_reads()[place]
}

/// Adds that the read of a byte reads from its only source, where it has one.
fn put_read(rows: &mut Rows, problem: &Problem<'_>, domains: &Domains, place: usize)
    requires len { rows_len rows.old ≡ length (events_on problem.now) }
    requires place { place < length (byte_reads (events_on problem.now)) }
    requires is_box { IsBox (box_with problem.now domains.now) }
    ensures len { rows_len rows.new ≡ rows_len rows.old }
    ensures pairs { (r w : ℕ) → Holds rows.new r w ↔ (Holds rows.old r w ⊎ IsGivenAt (box_with problem.now domains.now) place r w) }
{
    let read = usize::from(byte_read(problem, place).read);
    if let Some(source) = given_source(problem, domains, place) {
        rows.put(read, source);
    }
}

/// reads-from of what is given.
fn reads_of(problem: &Problem<'_>, domains: &Domains) -> Rows
    requires { IsBox (box_with problem.now domains.now) }
    ensures len { rows_len result ≡ length (events_on problem.now) }
    ensures pairs { (r w : ℕ) → Holds result r w ↔ ReadsFromBy (GivenIn (box_with problem.now domains.now)) r w }
{
    let mut rows = Rows::new(problem.combination().events().len());
    for place in 0..problem.combination().byte_reads().len() {
        put_read(&mut rows, problem, domains, place);
    }
    rows
}

/// Adds the events that an event synchronizes with, by reads-from as rows.
fn put_synchronized(rows: &mut Rows, events: &[Event], reads: &Rows, first: usize)
    requires len { rows_len reads.now ≡ length events.now }
    requires same { rows_len rows.old ≡ length events.now }
    requires first { first < length events.now }
    ensures len { rows_len rows.new ≡ rows_len rows.old }
    ensures pairs { (e d : ℕ) → Holds rows.new e d ↔ (Holds rows.old e d ⊎ ((e ≡ first) × (d < length events.now)
        × (Holds reads.now d first × CanSynchronize (event_of events.now first) (event_of events.now d)))) }
{
    for second in 0..events.len() {
        if reads.holds(second, first)
            && can_synchronize(event_at(events, first), event_at(events, second))
        {
            rows.put(first, second);
        }
    }
}

/// synchronizes-with, by reads-from as rows.
fn synchronizes_of(events: &[Event], reads: &Rows) -> Rows
    requires { rows_len reads.now ≡ length events.now }
    ensures len { rows_len result ≡ length events.now }
    ensures pairs { (e d : ℕ) → Holds result e d
        ↔ (Holds reads.now d e × CanSynchronize (event_of events.now e) (event_of events.now d)) }
{
    let mut rows = Rows::new(reads.len());
    for first in 0..events.len() {
        put_synchronized(&mut rows, events, reads, first);
    }
    rows
}

/// The relations of what is given.
pub fn relations_of(problem: &Problem<'_>, domains: &Domains) -> Relations
    requires { IsBox (box_with problem.now domains.now) }
    ensures { AreRelationsOf (box_with problem.now domains.now) result }
{
    let events = problem.combination().events();
    let reads = reads_of(problem, domains);
    let synchronizes = synchronizes_of(events, &reads);
    let before = TwoWayRows::closed(&steps_of(events, &synchronizes));
    Relations {
        reads,
        synchronizes,
        before,
    }
}

/// Adds what may not stand between the only source of a byte read, where it has one, and its read.
fn forbid(
    between: &mut Between,
    problem: &Problem<'_>,
    domains: &Domains,
    relations: &Relations,
    peers: &Rows,
    place: usize,
)
    requires place { place < length (byte_reads (events_on problem.now)) }
    requires is_box { IsBox (box_with problem.now domains.now) }
    requires relations { AreRelationsOf (box_with problem.now domains.now) relations.now }
    requires peers { ArePeers (events_on problem.now) peers.now }
    requires len { between.old.len ≡ length (events_on problem.now) }
    requires room { length between.old.pairs < BYTE_READ_LIMIT }
    ensures len { between.new.len ≡ between.old.len }
    ensures count { length between.new.pairs ≤ length between.old.pairs + 1 }
    ensures triples { (w r v : ℕ) → Forbids between.new w r v
        ↔ (Forbids between.old w r v ⊎ IsForbiddenAt (box_with problem.now domains.now) place w r v) }
{
    let events = problem.combination().events();
    let read = byte_read(problem, place).read;
    if let Some(source) = given_source(problem, domains, place) {
        let others = others_between(events, source as u8, read, &relations.before, peers);
        between.forbid(source as u8, read, others);
    }
}

/// What may not stand between each source that is given and its read. The relations are those of what is given.
pub fn between_of(problem: &Problem<'_>, domains: &Domains, relations: &Relations) -> Between
    requires is_box { IsBox (box_with problem.now domains.now) }
    requires relations { AreRelationsOf (box_with problem.now domains.now) relations.now }
    ensures len { result.len ≡ length (events_on problem.now) }
    ensures triples { (w r v : ℕ) → Forbids result w r v ↔ IsForbiddenIn (box_with problem.now domains.now) w r v }
{
    let events = problem.combination().events();
    let peers = peers_of(events);
    let mut between = Between::new(events.len());
    for place in 0..problem.combination().byte_reads().len() {
        forbid(&mut between, problem, domains, relations, &peers, place);
    }
    between
}
