//! `lit_why`: data races, chains, derivations and what refuses a part, on parts of small texts.

mod chains;
mod derivations;
mod racing;
mod refusals;

ghost use Rattle.std.specs.Prelude.{◌≡◌, ◌<◌, [], ◌∷◌, ◌++◌, length};
ghost use Rattle.lit_paths.specs.Choice.{combinations_of};
ghost use Rattle.lit_rel.specs.Part.{with_sources};

use lit_paths::Plan;
use lit_rel::Part;
use std::process::Abort;

/// Gives the next byte read a source, which is a candidate of it.
fn give(rt: &impl Abort, part: &mut Part<'_>, source: u8)
    ensures { part.new ≡ with_sources part.old (part.old.sources ++ source ∷ []) }
{
    let place = part.len();
    assert!(rt; place < part.reads());
    let is_candidate = part.combination().candidates(place).contains(&source);
    assert!(rt; is_candidate);
    part.push(source);
}

/// The part with these sources of a combination.
fn part_with<'p>(
    rt: &impl Abort,
    plan: &'p Plan<'p>,
    combination: usize,
    sources: &[u8],
) -> Part<'p>
    requires { combination < length (combinations_of plan.now) }
    ensures { result ≡ record { test = plan.now; combination = combination; sources = sources.now } }
{
    let mut part = Part::open(plan, combination);
    for source in sources {
        give(rt, &mut part, *source);
    }
    part
}
