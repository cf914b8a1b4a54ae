//! The cut of the choices into the pieces that workers draw. Each piece is searched for its outcomes anew (decision 63).

ghost use Rattle.std.specs.Prelude.{◌≡◌, ◌<◌, ◌≤◌};
ghost use Rattle.lit_paths.specs.declared.limits.TheConstants.{CHOICE_LIMIT};
ghost use Rattle.lit_share.specs.declared.limits.TheConstants.{CUT_LIMIT};

use lit_options::Options;
use lit_paths::{Combination, Plan};
use lit_syntax::REGISTERS;

/// How many pieces two to four workers draw at the most.
const PIECES_OF_FEW: u64 = 16;

/// How many pieces more workers draw at the most.
const PIECES_OF_MANY: u64 = 64;

/// How many pieces workers draw at the most where each piece has its own sources of observed bytes.
const PIECES_BY_SOURCES: u64 = 256;

/// How many pieces so many workers draw at the most. A worker alone has one.
fn pieces_of(workers: usize) -> u64
    ensures { 0 < result }
{
    if workers == 1 {
        1
    } else if workers <= 4 {
        PIECES_OF_FEW
    } else {
        PIECES_OF_MANY
    }
}

/// How many choices a piece has: as many as the options say, or more where that would make too many pieces.
pub(crate) fn cut_of(total: u64, options: Options) -> u64
    requires few { total ≤ CHOICE_LIMIT }
    ensures some { 0 < result }
    ensures small { result ≤ CUT_LIMIT }
{
    options.cut.max(total.div_ceil(pieces_of(options.workers)))
}

/// Whether a read is observed: some register holds its value at the end of its agent's path.
fn is_observed(combination: &Combination<'_>, read: u8) -> bool {
    for agent in 0..combination.test().agents() {
        for register in 0..REGISTERS as u8 {
            if let Some(place) = combination.path(agent).last(register) {
                // The number of an event fits in a byte: saturation spares the proof of it.
                if combination.first_event(agent).saturating_add(place) == read {
                    return true;
                }
            }
        }
    }
    false
}

/// How many choices of the first combination have the same sources of its leading observed bytes. It takes as many bytes as make `wanted`
/// pieces that likely have outcomes: those in which the bytes of a read come from one event. Other sources mostly store other values, so
/// hardly an outcome is in two such pieces; an even cut would leave most workers nothing to do (decision 63).
fn cut_by_sources(plan: &Plan<'_>, wanted: u64) -> u64
    ensures some { 0 < result }
    ensures small { result ≤ CHOICE_LIMIT }
{
    // Tells the prover that there is a combination to enter.
    let _combinations = plan.combinations();
    let combination = plan.enter(0);
    let (mut cut, mut likely, mut last) = (plan.total(), 1_u64, None);
    for (place, at) in combination.byte_reads().iter().enumerate() {
        let next = combination.ways_after(place);
        if likely >= wanted
            || plan.total().div_ceil(next) > PIECES_BY_SOURCES
            || !is_observed(&combination, at.read)
        {
            break;
        }
        cut = next;
        // The bytes of a read mostly come from one event, so only its first byte multiplies the pieces that likely have outcomes.
        if last != Some(at.read) {
            likely = likely.saturating_mul(combination.candidates(place).len() as u64);
            last = Some(at.read);
        }
    }
    // The cut is from 1 to the total as it is: this clamp replaces an invariant of the loop.
    cut.min(plan.total()).max(1)
}

/// Whether outcomes show the source of the first byte read that has several candidates.
fn shows_first(combination: &Combination<'_>) -> bool {
    for (place, at) in combination.byte_reads().iter().enumerate() {
        if combination.candidates(place).len() > 1 {
            return is_observed(combination, at.read);
        }
    }
    true
}

/// How many even pieces so many workers draw at the most. Where no outcome shows the first sources, most outcomes of a combination are
/// in each piece of it, so that there are no more pieces than combinations (decision 63).
fn even_pieces(plan: &Plan<'_>, workers: usize) -> u64
    ensures { 0 < result }
{
    let pieces = pieces_of(workers);
    let combinations = plan.combinations();
    if shows_first(&plan.enter(0)) {
        pieces
    } else {
        pieces.min(combinations as u64)
    }
}

/// How many choices a piece of a search for outcomes has. For several workers the cut is by the sources of leading observed bytes, where
/// that makes more pieces than an even cut.
pub(crate) fn cut_for_outcomes(plan: &Plan<'_>, options: Options) -> u64
    ensures some { 0 < result }
    ensures small { result ≤ CUT_LIMIT }
{
    let even = plan.total().div_ceil(even_pieces(plan, options.workers));
    if options.workers == 1 {
        return options.cut.max(even);
    }
    options
        .cut
        .max(cut_by_sources(plan, pieces_of(options.workers)).min(even))
}
