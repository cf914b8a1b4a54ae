//! Searches of 4,096 pieces, by one worker and by many.

ghost use Rattle.std.specs.Prelude.{◌≡◌, ◌<◌, ◌≤◌, IfOk, length};

use lit_paths::{Plan, plan};
use lit_read::read;
use lit_share::{OpenGate, quick, search};
use lit_test_texts::TWELVE_BRANCHES;
use std::alloc::AllocGlobal;
use std::process::Abort;
use std::test::Fail;
use std::thread::Threads;

/// As many passes as workers.
fn passes(rt: &impl AllocGlobal, workers: usize) -> Result<Vec<()>, Fail>
    ensures { IfOk result (λ passes. length passes.items ≡ workers) }
{
    let mut passes = Vec::new(rt.alloc());
    passes.resize(workers, ())?;
    Ok(passes)
}

/// That so many workers find the one outcome of twelve branches, by its only choice, whole and quick, a choice a piece.
fn finds_the_only_choice(
    rt: &(impl Abort + AllocGlobal + Threads + Sync),
    plan: &Plan<'_>,
    workers: usize,
) -> Result<(), Fail>
    requires { (0 < workers) × (workers ≤ 16) }
{
    let found = search(rt, rt.alloc(), plan, 1, &OpenGate, passes(rt, workers)?)?;
    assert_eq!(rt; found.len(), 1);
    assert_eq!(rt; found.outcome(0), [0].as_slice());
    assert_eq!(rt; found.example(0).choice, 0);
    assert_eq!(rt; found.example(0).order.as_slice(), [0, 1].as_slice());
    assert!(rt; !found.race());
    let quick = quick(rt, rt.alloc(), plan, 1, &OpenGate, passes(rt, workers)?)?;
    assert!(rt; quick.unmet.is_none());
    let Some(met) = quick.met else {
        panic!(rt; "the outcome meets the condition")
    };
    assert_eq!(rt; met.choice, 0);
    assert_eq!(rt; met.order.as_slice(), [0, 1].as_slice());
    Ok(())
}

#[test]
fn a_piece_for_each_of_many_paths(rt: HostRuntime) -> Result<(), Fail> {
    let test = read(rt.alloc(), TWELVE_BRANCHES.as_bytes())?;
    let plan = plan(rt.alloc(), &test)?;
    assert_eq!(rt; plan.total(), 4_096);
    for workers in [1, 3, 16] {
        finds_the_only_choice(&rt, &plan, workers)?;
    }
    Ok(())
}
