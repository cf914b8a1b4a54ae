//! Covers: an attempt's box is cut, byte by byte, into cases that what is given in each refutes (decision 142).

ghost use Rattle.std.specs.Prelude.{◌≡◌, ◌<◌, ◌≤◌, IfOk, IfSome, OnOk, length};
ghost use Rattle.lit_paths.specs.ByteReads.{byte_reads};
ghost use Rattle.lit_paths.specs.declared.limits.TheConstants.{BYTE_READ_LIMIT as READS};
ghost use Rattle.lit_solve.specs.Box.{IsBox, box_with, events_on};
ghost use Rattle.lit_why.specs.Internal.Cutting.{AddsCases};

use crate::asking::asks;
use crate::cases::given::byte_read;
use crate::cases::refuting::refutation;
use crate::refusals::causes::Refusal;
use lit_paths::Plan;
use lit_rel::EventSet;
use lit_solve::{Domains, Problem};
use std::alloc::{AllocError, Global};

/// A box within an attempt's, with what refutes it.
#[derive(Clone, Copy)]
pub struct Case {
    /// The sources that each byte read has.
    pub domains: Domains,
    /// The first clause that what is given breaks.
    pub refusal: Refusal,
}

/// Whether a domain has several sources.
fn has_several(domains: &Domains, place: usize) -> bool
    requires { place < READS }
{
    match domains[place].split_first() {
        Some((_first, others)) => !others.is_empty(),
        None => false,
    }
}

/// The byte read on which a box is cut: the first that has several sources, one whose read is asked about before others.
fn cutting_place(plan: &Plan<'_>, problem: &Problem<'_>, domains: &Domains) -> Option<usize>
    requires { plan.now ≡ problem.now.0 }
    ensures { IfSome result (λ place. place < length (byte_reads (events_on problem.now))) }
{
    // Tells the prover that there are few byte reads, so that each has a place in the domains.
    let _events = problem.combination().events();
    let combination = problem.combination();
    let mut found = None;
    for place in 0..combination.byte_reads().len() {
        if has_several(domains, place) {
            let read = usize::from(byte_read(problem, place).read);
            if asks(plan, combination, read) {
                return Some(place);
            }
            if found.is_none() {
                found = Some(place);
            }
        }
    }
    found
}

/// Adds cases of a box, until there are `most` with those before. Gives whether they have all sources of the box, which is cut so many
/// times at the most.
pub(crate) fn add_cases(
    plan: &Plan<'_>,
    problem: &Problem<'_>,
    domains: &Domains,
    most: usize,
    cuts: usize,
    cases: &mut Vec<Case>,
) -> Result<bool, AllocError>
    requires plan { plan.now ≡ problem.now.0 }
    requires is_box { IsBox (box_with problem.now domains.now) }
    requires few { length cases.old.items ≤ most }
    ensures cases { IfOk result (AddsCases (box_with problem.now domains.now) cases.old.items cases.new.items) }
    ensures few { OnOk result (length cases.new.items ≤ most) }
{
    if cases.len() >= most {
        return Ok(false);
    }
    if let Some(refusal) = refutation(problem, domains) {
        cases.push(Case {
            domains: *domains,
            refusal,
        })?;
        return Ok(true);
    }
    if cuts == 0 {
        return Ok(false);
    }
    let Some(place) = cutting_place(plan, problem, domains) else {
        return Ok(false);
    };
    // Tells the prover that the events of the combination have a place in a set.
    let _events = problem.combination().events();
    let mut left = domains[place];
    while let Some((source, others)) = left.split_first() {
        let mut next = *domains;
        next[place] = EventSet::new().with(source);
        if !add_cases(plan, problem, &next, most, cuts - 1, cases)? {
            return Ok(false);
        }
        left = others;
    }
    Ok(true)
}
