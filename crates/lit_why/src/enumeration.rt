//! Enumeration of the attempts at a class: on each combination a depth-first search that branches on the byte stored for each byte read.

ghost use Rattle.std.specs.Prelude.{◌≡◌, ◌↔◌, ℕ, ◌≤◌, ◌<◌, IfOk, IsTrue, OnOk, length, true};
ghost use Rattle.lit_syntax.specs.Syntax.{IsLitmus};
ghost use Rattle.lit_paths.specs.ByteReads.{byte_reads};
ghost use Rattle.lit_paths.specs.Choice.{combinations_of};
ghost use Rattle.lit_paths.specs.Members.{AreSources};
ghost use Rattle.lit_solve.specs.Box.{HasEmptyDomain, IsBox, box_with, events_on};
ghost use Rattle.lit_solve.specs.Fill.{AreSourcesIn};
ghost use Rattle.lit_why.specs.Attempts.{AreFirstAttempts, HasSoMany, IsOn};
ghost use Rattle.lit_why.specs.Internal.Added.{Adds};
ghost use Rattle.lit_why.specs.Internal.Trials.{IsLeastTryOn, IsNode, MayTry, TriesIn};

use crate::attempt::Attempt;
use crate::counting::count_same_values;
use crate::representatives::representatives;
use crate::trials::can_try;
use lit_paths::{Plan, Sources};
use lit_rel::EventSet;
use lit_rel::laws::refused_bytes_make_guards_false;
use lit_solve::{Domains, Problem, number_of};
use lit_valid::Class;
use lit_valid::laws::laws_below;
use std::alloc::{AllocError, Global};

/// The least source in each domain.
fn least_sources(problem: &Problem<'_>, domains: &Domains) -> Sources
    requires is_box { IsBox (box_with problem.now domains.now) }
    requires some { ¬ HasEmptyDomain (box_with problem.now domains.now) }
    ensures { AreSourcesIn (box_with problem.now domains.now) result.items }
{
    // Tells the prover that there is room for a source of each byte read, and that the number of an event fits in a byte.
    let _events = problem.combination().events();
    let mut sources = Sources::new();
    for place in 0..problem.combination().byte_reads().len() {
        if let Some((source, _others)) = domains[place].split_first() {
            sources.push(source as u8);
        }
    }
    sources
}

/// The number of the choice with these sources, one for each byte read, and how many choices its attempt has.
fn attempt_of(plan: &Plan<'_>, problem: &Problem<'_>, sources: &[u8]) -> Attempt
    requires plan { plan.now ≡ problem.now.0 }
    requires known { problem.now.1 < length (combinations_of problem.now.0) }
    requires sourced { AreSources (events_on problem.now) sources.now }
    ensures on { IsOn problem.now.0 result.choice problem.now.1 sources.now }
    ensures many { HasSoMany problem.now.0 result.choice result.choices }
{
    let combination = problem.combination();
    Attempt {
        choice: number_of(combination, sources),
        choices: count_same_values(plan, combination, sources),
    }
}

/// Adds the attempt of a leaf: the domain of each byte read has one source, and these sources try the class.
fn add_one(
    plan: &Plan<'_>,
    problem: &Problem<'_>,
    class: Class,
    most: usize,
    domains: &Domains,
    attempts: &mut Vec<Attempt>,
) -> Result<(), AllocError>
    requires plan { plan.now ≡ problem.now.0 }
    requires node { IsNode (box_with problem.now domains.now) (length (byte_reads (events_on problem.now))) }
    requires room { length attempts.old.items < most }
    requires can_try { MayTry (box_with problem.now domains.now) class true }
    ensures { OnOk result (Adds problem.now.0 most (TriesIn (box_with problem.now domains.now) class)
        attempts.old.items attempts.new.items) }
{
    // Tells the prover the laws of the crates below.
    laws_below();
    let sources = least_sources(problem, domains);
    attempts.push(attempt_of(plan, problem, sources.as_slice()))?;
    Ok(())
}

/// Adds the attempts by sources in the domains, until there are `most`. Each byte read before a place has one source.
fn add(
    plan: &Plan<'_>,
    problem: &Problem<'_>,
    class: Class,
    most: usize,
    domains: &Domains,
    place: usize,
    attempts: &mut Vec<Attempt>,
) -> Result<(), AllocError>
    requires plan { plan.now ≡ problem.now.0 }
    requires node { IsNode (box_with problem.now domains.now) place }
    requires few { length attempts.old.items ≤ most }
    ensures { OnOk result (Adds problem.now.0 most (TriesIn (box_with problem.now domains.now) class)
        attempts.old.items attempts.new.items) }
{
    // Tells the prover the laws of the crates below.
    laws_below();
    // Tells the prover that there are few byte reads, so that each has a place in the domains.
    let _events = problem.combination().events();
    if attempts.len() == most || !can_try(problem, domains, class) {
        return Ok(());
    }
    if place == problem.combination().byte_reads().len() {
        return add_one(plan, problem, class, most, domains, attempts);
    }
    let mut left = domains[place];
    while let Some((source, others)) = left.split_first() {
        let mut next = *domains;
        next[place] = EventSet::new().with(source);
        add(plan, problem, class, most, &next, place + 1, attempts)?;
        left = others;
    }
    Ok(())
}

/// Whether some byte read has an empty domain.
fn has_empty(problem: &Problem<'_>, domains: &Domains) -> bool
    ensures { IsTrue result ↔ HasEmptyDomain (box_with problem.now domains.now) }
{
    // Tells the prover that there are few byte reads, so that each has a place in the domains.
    let _events = problem.combination().events();
    for place in 0..problem.combination().byte_reads().len() {
        if domains[place].is_empty() {
            return true;
        }
    }
    false
}

/// Adds the attempts on a combination, until there are `most`.
fn add_on(
    plan: &Plan<'_>,
    problem: &Problem<'_>,
    class: Class,
    most: usize,
    attempts: &mut Vec<Attempt>,
) -> Result<(), AllocError>
    requires plan { plan.now ≡ problem.now.0 }
    requires litmus { IsLitmus problem.now.0 }
    requires known { problem.now.1 < length (combinations_of problem.now.0) }
    requires few { length attempts.old.items ≤ most }
    ensures { OnOk result (Adds problem.now.0 most (IsLeastTryOn problem.now.0 class problem.now.1)
        attempts.old.items attempts.new.items) }
{
    // The second law says that a source which a guard refuses makes a guard of every complete part with it false, so the domains of
    // representatives lose no attempt (decision 142).
    laws_below();
    refused_bytes_make_guards_false();
    // Tells the prover that there are few events and few byte reads.
    let _events = problem.combination().events();
    let domains = representatives(plan, problem.combination());
    if has_empty(problem, &domains) {
        return Ok(());
    }
    add(plan, problem, class, most, &domains, 0, attempts)
}

/// The first `most` attempts at a class of a plan's test, in the order of their first choices: each combination of paths with values
/// of its reads that some sources give, that the guards allow, and that put the outcome in the class. The search visits attempts and
/// dead ends between them, not each choice. Answers `AllocError` where a growth was refused.
pub fn attempts(
    alloc: Global,
    plan: &Plan<'_>,
    class: Class,
    most: usize,
) -> Result<Vec<Attempt>, AllocError>
    ensures { IfOk result (λ attempts. AreFirstAttempts plan.now class most attempts.items) }
{
    // Tells the prover that the test is one that a text can spell.
    let _test = plan.test();
    let mut found = Vec::new(alloc);
    for combination in 0..plan.combinations() {
        let problem = Problem::open(&*plan, combination);
        add_on(plan, &problem, class, most, &mut found)?;
    }
    Ok(found)
}
