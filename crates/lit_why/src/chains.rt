//! Shortest chains of happens-before from one event to another (ECMA-262, 2024, 29.6.6).

pub(crate) mod links;
mod reaching;
pub(crate) mod steps;

ghost use Rattle.std.specs.Prelude.{◌≡◌, ◌↔◌, ℕ, ◌+◌, ◌<◌, MatchOption, length};
ghost use Rattle.lit_rel.specs.Rows.{Holds, rows_len};
ghost use Rattle.lit_why.specs.Chains.{AreLinked, HasNoChain, IsOfKind, IsShortestChain};
ghost use Rattle.lit_why.specs.Internal.Reaching.{AreLevels, IsReachedBy, IsStep};

use crate::chains::links::{Chain, Link};
use crate::chains::reaching::{levels_below, next_of};
use crate::chains::steps::{kind_of, steps_of};
use arrayvec::ArrayVec;
use lit_paths::{EVENT_LIMIT, Event};
use lit_rel::{EventSet, Rows};

/// The links of a shortest chain from one event to another, along the levels that `levels_below` gives.
fn links_along(
    events: &[Event],
    synchronizes: &Rows,
    steps: &Rows,
    levels: &[EventSet],
    from: usize,
    to: usize,
) -> ArrayVec<Link, EVENT_LIMIT>
    requires len { rows_len synchronizes.now ≡ length events.now }
    requires same { rows_len steps.now ≡ length events.now }
    requires steps { (e d : ℕ) → Holds steps.now e d ↔ IsStep events.now (Holds synchronizes.now) e d }
    requires few { length levels.now < rows_len steps.now }
    requires levels { AreLevels (Holds steps.now) to levels.now }
    requires reached { IsReachedBy (Holds steps.now) to (length levels.now) from }
    ensures linked { AreLinked events.now (Holds synchronizes.now) from result.items to }
    ensures count { length result.items ≡ length levels.now + 1 }
{
    let mut links = ArrayVec::new();
    let mut event = from;
    let mut left = levels.len();
    while left > 0 {
        left -= 1;
        let next = next_of(steps, event, levels[left]);
        links.push(link_between(events, synchronizes, event, next));
        event = next;
    }
    links.push(link_between(events, synchronizes, event, to));
    links
}

/// A step from one event to another.
fn link_between(events: &[Event], synchronizes: &Rows, first: usize, second: usize) -> Link
    requires len { rows_len synchronizes.now ≡ length events.now }
    requires first { first < length events.now }
    requires second { second < length events.now }
    requires step { IsStep events.now (Holds synchronizes.now) first second }
    ensures to { result.to ≡ second }
    ensures kind { IsOfKind events.now (Holds synchronizes.now) result.kind first second }
{
    // Tells the prover that there are few events, so that the number of an event fits in a byte.
    let _events = synchronizes.len();
    Link {
        to: second as u8,
        kind: kind_of(events, synchronizes, first, second),
    }
}

/// A shortest chain of happens-before from one event to another, both by number, by synchronizes-with as rows; from an event to itself it
/// is a cycle. Each step is of agent-order, of synchronizes-with, or from an init event to an event whose range has its byte. `None`
/// exactly where there is no chain.
pub fn chain(events: &[Event], synchronizes: &Rows, from: u8, to: u8) -> Option<Chain>
    requires { rows_len synchronizes.now ≡ length events.now }
    ensures { MatchOption result (HasNoChain events.now (Holds synchronizes.now) from to)
        (λ chain. IsShortestChain events.now (Holds synchronizes.now) from to chain.links.items) }
{
    let steps = steps_of(events, synchronizes);
    let (first, last) = (usize::from(from), usize::from(to));
    if first >= steps.len() || last >= steps.len() {
        return None;
    }
    match levels_below(&steps, first, last) {
        Some(levels) => Some(Chain {
            links: links_along(events, synchronizes, &steps, levels.as_slice(), first, last),
        }),
        None => None,
    }
}
