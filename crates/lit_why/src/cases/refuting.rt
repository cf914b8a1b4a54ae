//! Whether what is given in a box refutes it: the first clause of a valid execution (ECMA-262, 2024, 29.7) that it breaks.

ghost use Rattle.std.specs.Prelude.{◌≡◌, ◌↔◌, ℕ, ◌<◌, MatchOption, length};
ghost use Rattle.lit_paths.specs.ByteReads.{byte_reads};
ghost use Rattle.lit_rel.specs.Rows.{Holds, rows_len};
ghost use Rattle.lit_solve.specs.Box.{IsBox, box_with, events_on};
ghost use Rattle.lit_solve.specs.Given.{GivenIn, HappensBeforeIn};
ghost use Rattle.lit_why.specs.Refutation.{IsCauseIn, IsRefutation, IsUnrefuted};
ghost use Rattle.lit_why.specs.Internal.Relations.{IsCoherentAt};

use crate::cases::given::{between_of, byte_read, given_source, relations_of};
use crate::derivations::first_before_itself;
use crate::refusals::causes::Refusal;
use crate::refusals::has_order;
use crate::refusals::incoherence::{IncoherentByte, incoherence};
use crate::refusals::tearing::first_torn;
use lit_rel::Rows;
use lit_solve::{Domains, Problem};

/// Why the only source of a byte read is not coherent, where it has one and that is so, by happens-before as rows.
fn incoherent_at(
    problem: &Problem<'_>,
    domains: &Domains,
    before: &Rows,
    place: usize,
) -> Option<IncoherentByte>
    requires place { place < length (byte_reads (events_on problem.now)) }
    requires is_box { IsBox (box_with problem.now domains.now) }
    requires len { rows_len before.now ≡ length (events_on problem.now) }
    requires pairs { (e d : ℕ) → Holds before.now e d ↔ HappensBeforeIn (box_with problem.now domains.now) e d }
    ensures { MatchOption result (IsCoherentAt (box_with problem.now domains.now) place)
        (λ found. GivenIn (box_with problem.now domains.now) found.read found.byte found.source
        × IsCauseIn (box_with problem.now domains.now) found.read found.byte found.source found.cause) }
{
    let events = problem.combination().events();
    let at = byte_read(problem, place);
    let source = given_source(problem, domains, place)? as u8;
    let cause = incoherence(events, before, at, source)?;
    Some(IncoherentByte {
        place,
        read: at.read,
        byte: at.byte,
        source,
        cause,
    })
}

/// The first byte that is given and not coherent, by happens-before as rows.
fn incoherent_given(
    problem: &Problem<'_>,
    domains: &Domains,
    before: &Rows,
) -> Option<IncoherentByte>
    requires is_box { IsBox (box_with problem.now domains.now) }
    requires len { rows_len before.now ≡ length (events_on problem.now) }
    requires pairs { (e d : ℕ) → Holds before.now e d ↔ HappensBeforeIn (box_with problem.now domains.now) e d }
    ensures { MatchOption result ((k : ℕ) → IsCoherentAt (box_with problem.now domains.now) k)
        (λ found. GivenIn (box_with problem.now domains.now) found.read found.byte found.source
        × IsCauseIn (box_with problem.now domains.now) found.read found.byte found.source found.cause) }
{
    for place in 0..problem.combination().byte_reads().len() {
        if let Some(found) = incoherent_at(problem, domains, before, place) {
            return Some(found);
        }
    }
    None
}

/// The first clause of a valid execution, in the order of `Refusal`, that what is given in a box breaks, so that no valid execution has
/// its sources there. The guards of the paths are none of these. `None` exactly where what is given breaks no clause; then the box may
/// have to be cut.
pub fn refutation(problem: &Problem<'_>, domains: &Domains) -> Option<Refusal>
    requires { IsBox (box_with problem.now domains.now) }
    ensures { MatchOption result (IsUnrefuted (box_with problem.now domains.now)) (IsRefutation (box_with problem.now domains.now)) }
{
    let relations = relations_of(problem, domains);
    let before = &relations.before.rows;
    if let Some(event) = first_before_itself(before) {
        return Some(Refusal::BeforeItself { event: event as u8 });
    }
    if let Some(found) = incoherent_given(problem, domains, before) {
        return Some(Refusal::Incoherent {
            read: found.read,
            byte: found.byte,
            source: found.source,
            cause: found.cause,
        });
    }
    let events = problem.combination().events();
    if let Some(found) = first_torn(events, &relations.reads) {
        return Some(Refusal::Torn {
            read: found.read as u8,
            source: found.source as u8,
            other: found.other as u8,
        });
    }
    let between = between_of(problem, domains, &relations);
    if has_order(before, &between) {
        None
    } else {
        Some(Refusal::NoOrder)
    }
}
