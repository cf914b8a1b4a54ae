//! Complete parts, by the numbers of their choices.

ghost use Rattle.std.specs.Prelude.{◌≡◌, ◌<◌, length};
ghost use Rattle.lit_paths.specs.Choice.{choices_of};
ghost use Rattle.lit_paths.specs.Plan.{HasSources, IsOfCombination};
ghost use Rattle.lit_rel.specs.Part.{IsComplete};

use lit_paths::Plan;
use lit_rel::Part;

/// The part that has all sources of a choice, by the choice's number: below `plan.total()`.
pub fn part_of<'p>(plan: &'p Plan<'p>, choice: u64) -> Part<'p>
    requires { choice < length (choices_of plan.now) }
    ensures test { result.test ≡ plan.now }
    ensures combination { IsOfCombination plan.now choice result.combination }
    ensures sources { HasSources plan.now choice result.sources }
    ensures complete { IsComplete result }
{
    let number = plan.combination(choice);
    let mut part = Part::open(plan, number);
    let sources = part.combination().sources(choice);
    for source in sources.as_slice() {
        part.push(*source);
    }
    part
}
