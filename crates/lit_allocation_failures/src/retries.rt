//! Retries: the calls that can be refused memory, each made once more where it is refused.

ghost use Rattle.std.specs.Prelude.{◌≡◌, ◌<◌, ◌≤◌, length, IfOk, OnOk};
ghost use Rattle.lit_paths.specs.Choice.{choices_of};
ghost use Rattle.lit_share.specs.declared.limits.TheConstants.{WORKER_LIMIT};

use lit_paths::{Plan, plan};
use lit_read::{read, show};
use lit_search::{Collector, Example, Found, NoHeartbeat};
use lit_share::{OpenGate, Quick, quick, search};
use lit_syntax::Test;
use std::alloc::{AllocError, Global};
use std::io::{Eprint, Print};
use std::test::Fail;
use std::thread::Threads;
use std::{io, str};

/// A pass for each worker.
fn passes(alloc: Global, workers: usize) -> Result<Vec<()>, AllocError>
    ensures { IfOk result (λ passes. length passes.items ≡ workers) }
{
    let mut passes = Vec::new(alloc);
    passes.resize(workers, ())?;
    Ok(passes)
}

fn text_read<R: Eprint>(rt: &R, alloc: Global, text: &[u8]) -> Result<Test, Fail> {
    match read(alloc, text) {
        Ok(test) => Ok(test),
        Err(fault) => {
            eprintln!(rt; "read: {fault}")?;
            Ok(read(alloc, text)?)
        }
    }
}

fn shown<R: Eprint>(rt: &R, alloc: Global, test: &Test) -> Result<Vec<u8>, Fail> {
    match show(alloc, test) {
        Ok(text) => Ok(text),
        Err(fault) => {
            eprintln!(rt; "show: {fault}")?;
            Ok(show(alloc, test)?)
        }
    }
}

fn planned<'t, R: Eprint>(rt: &R, alloc: Global, test: &'t Test) -> Result<Plan<'t>, Fail> {
    match plan(alloc, test) {
        Ok(plan) => Ok(plan),
        Err(fault) => {
            eprintln!(rt; "plan: {fault}")?;
            Ok(plan(alloc, test)?)
        }
    }
}

fn searched<R: Threads + Sync + Eprint>(
    rt: &R,
    alloc: Global,
    plan: &Plan<'_>,
    workers: usize,
) -> Result<Found, Fail>
    requires some { 0 < workers }
    requires few { workers ≤ WORKER_LIMIT }
{
    match search(rt, alloc, plan, 1, &OpenGate, passes(alloc, workers)?) {
        Ok(found) => Ok(found),
        Err(fault) => {
            eprintln!(rt; "search: {fault}")?;
            let passes = passes(alloc, workers)?;
            Ok(search(rt, alloc, plan, 1, &OpenGate, passes)?)
        }
    }
}

fn quickly_searched<R: Threads + Sync + Eprint>(
    rt: &R,
    alloc: Global,
    plan: &Plan<'_>,
    workers: usize,
) -> Result<Quick, Fail>
    requires some { 0 < workers }
    requires few { workers ≤ WORKER_LIMIT }
{
    match quick(rt, alloc, plan, 1, &OpenGate, passes(alloc, workers)?) {
        Ok(answer) => Ok(answer),
        Err(fault) => {
            eprintln!(rt; "quick: {fault}")?;
            let passes = passes(alloc, workers)?;
            Ok(quick(rt, alloc, plan, 1, &OpenGate, passes)?)
        }
    }
}

/// Takes a range of choices. A collector that is refused memory is as it was, so it takes the range again (decision 46).
fn take<R: Eprint>(rt: &R, collector: &mut Collector<'_>, from: u64, to: u64) -> Result<(), Fail>
    requires follows { collector.old.end ≤ from }
    requires order { from ≤ to }
    requires known { to ≤ length (choices_of collector.old.test) }
    ensures test { OnOk result (collector.new.test ≡ collector.old.test) }
    ensures end { OnOk result (collector.new.end ≡ to) }
{
    if let Err(fault) = collector.take(&NoHeartbeat, from, to) {
        eprintln!(rt; "take: {fault}")?;
        collector.take(&NoHeartbeat, from, to)?;
    }
    Ok(())
}

/// The report of all choices, which one collector takes in two ranges.
fn collected<R: Eprint>(rt: &R, alloc: Global, plan: &Plan<'_>) -> Result<Found, Fail> {
    let total = plan.total();
    let mut collector = Collector::new(alloc, &*plan);
    take(rt, &mut collector, 0, total / 2)?;
    take(rt, &mut collector, total / 2, total)?;
    Ok(collector.into_found()?)
}

/// Prints each outcome with its example, and whether there is a data race.
fn print_found<R: Print>(rt: &R, found: &Found) -> io::Result<()> {
    for place in 0..found.len() {
        let example = found.example(place);
        println!(rt;
            "{:?} {} by {:?}",
            found.outcome(place),
            example.choice,
            example.order.as_slice()
        )?;
    }
    let answer = if found.race() { "yes" } else { "no" };
    println!(rt; "data race {answer}")
}

/// Prints the first choice of a class.
fn print_first<R: Print>(rt: &R, name: &str, example: Option<Example>) -> io::Result<()> {
    match example {
        Some(example) => println!(rt;
            "{name} {} by {:?}",
            example.choice,
            example.order.as_slice()
        ),
        None => println!(rt; "{name} none"),
    }
}

/// Searches the choices of a plan by so many workers, a choice a piece, and by one collector, and prints what is found.
fn search_all<R: Threads + Sync + Eprint + Print>(
    rt: &R,
    alloc: Global,
    plan: &Plan<'_>,
    workers: usize,
) -> Result<(), Fail>
    requires some { 0 < workers }
    requires few { workers ≤ WORKER_LIMIT }
{
    let found = searched(rt, alloc, plan, workers)?;
    print_found(rt, &found)?;
    print_found(rt, &collected(rt, alloc, plan)?)?;
    let answer = quickly_searched(rt, alloc, plan, workers)?;
    print_first(rt, "met", answer.met)?;
    Ok(print_first(rt, "unmet", answer.unmet)?)
}

/// Reads a text, shows its test, plans it, and searches its choices by so many workers. Prints what each call gives.
pub(crate) fn call_all<R: Threads + Sync + Eprint + Print>(
    rt: &R,
    alloc: Global,
    text: &[u8],
    workers: usize,
) -> Result<(), Fail>
    requires some { 0 < workers }
    requires few { workers ≤ WORKER_LIMIT }
{
    let test = text_read(rt, alloc, text)?;
    let canonical = shown(rt, alloc, &test)?;
    println!(rt; "{}", str::from_utf8(&canonical)?)?;
    let plan = planned(rt, alloc, &test)?;
    println!(rt;
        "{} combinations, {} choices",
        plan.combinations(),
        plan.total()
    )?;
    search_all(rt, alloc, &plan, workers)
}
