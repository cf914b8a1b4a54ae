//! `lit_rel`: the relations of choices and of their parts, and what breaks a part.

mod between;
mod broken;
mod parts;
mod races;
mod sets;
mod sources;

ghost use Rattle.std.specs.Prelude.{◌≡◌, ◌+◌, ◌<◌, ◌≤◌, [], ◌∷◌, ◌++◌, length};
ghost use Rattle.lit_paths.specs.Choice.{combinations_of};
ghost use Rattle.lit_paths.specs.Plan.{choices_before};
ghost use Rattle.lit_rel.specs.Part.{IsComplete, with_sources};

use lit_paths::{Plan, plan};
use lit_read::read;
use lit_rel::{Between, Part, Rows};
use lit_syntax::Test;
use std::alloc::AllocGlobal;
use std::process::Abort;

/// The test that a text spells.
pub(super) fn test_of(rt: &(impl Abort + AllocGlobal), text: &str) -> Test {
    read(rt.alloc(), text.as_bytes()).expect(rt, "a test")
}

/// The plan of a test.
pub(super) fn plan_of<'t>(rt: &(impl Abort + AllocGlobal), test: &'t Test) -> Plan<'t> {
    plan(rt.alloc(), test).expect(rt, "a plan")
}

/// Asserts that a plan has this number of choices.
fn has_choices(rt: &impl Abort, plan: &Plan<'_>, wanted: u64) {
    assert_eq!(rt; plan.total(), wanted);
}

/// Asserts that a plan has this number of combinations.
fn has_combinations(rt: &impl Abort, plan: &Plan<'_>, wanted: usize) {
    assert_eq!(rt; plan.combinations(), wanted);
}

/// A combination's part with no sources yet.
fn part_with_none<'p>(rt: &impl Abort, plan: &'p Plan<'p>, combination: usize) -> Part<'p> {
    assert!(rt; combination < plan.combinations());
    Part::open(plan, combination)
}

/// The part with all sources of a choice, which is one of a combination's.
pub(super) fn part_of<'p>(plan: &'p Plan<'p>, combination: usize, choice: u64) -> Part<'p>
    requires known { combination < length (combinations_of plan.now) }
    requires low { choices_before plan.now combination ≤ choice }
    requires high { choice < choices_before plan.now (combination + 1) }
    ensures complete { IsComplete result }
    ensures test { result.test ≡ plan.now }
    ensures combination { result.combination ≡ combination }
{
    let sources = plan.enter(combination).sources(choice);
    let mut part = Part::open(plan, combination);
    for source in sources.as_slice() {
        part.push(*source);
    }
    part
}

/// Gives the next byte read a source, which is a candidate of it.
fn give(rt: &impl Abort, part: &mut Part<'_>, source: u8)
    ensures { part.new ≡ with_sources part.old (part.old.sources ++ source ∷ []) }
{
    let place = part.len();
    assert!(rt; place < part.reads());
    let is_candidate = part.combination().candidates(place).contains(&source);
    assert!(rt; is_candidate);
    part.push(source);
}

/// Gives the next byte reads these sources.
fn give_all(rt: &impl Abort, part: &mut Part<'_>, sources: &[u8]) {
    for source in sources {
        give(rt, part, *source);
    }
}

/// Whether the first combination of a test, with these sources for its first byte reads, is broken, and the triples that
/// it forbids.
fn of_sources(rt: &(impl Abort + AllocGlobal), text: &str, sources: &[u8]) -> (bool, Between) {
    let test = test_of(rt, text);
    let plan = plan_of(rt, &test);
    let mut part = part_with_none(rt, &plan, 0);
    give_all(rt, &mut part, sources);
    (part.broken(), part.between())
}

/// The rows hold of these pairs and of no other.
fn assert_pairs(rt: &impl Abort, rows: &Rows, wanted: &[(usize, usize)]) {
    for a in 0..rows.len() {
        for d in 0..rows.len() {
            assert_eq!(rt; rows.holds(a, d), wanted.contains(&(a, d)), "at {a} {d}");
        }
    }
}

/// These triples are forbidden and no other.
fn assert_triples(rt: &impl Abort, between: &Between, wanted: &[(usize, usize, usize)]) {
    for w in 0..between.len() {
        for r in 0..between.len() {
            for v in 0..between.len() {
                assert_eq!(rt;
                    between.forbids(w, r, v),
                    wanted.contains(&(w, r, v)),
                    "at {w} {r} {v}"
                );
            }
        }
    }
}
