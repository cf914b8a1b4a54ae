//! The paths of a combination, by its number, and their events.

ghost use Rattle.std.specs.Prelude.{◌≡◌, ◌+◌, ◌<◌, ◌≤◌, ◌++◌, length};
ghost use Rattle.arrayvec.specs.ArrayVec.{array_vec_len};
ghost use Rattle.lit_syntax.specs.declared.limits.TheConstants.{BLOCK_LIMIT};
ghost use Rattle.lit_paths.specs.declared.limits.TheConstants.{EVENT_LIMIT};
ghost use Rattle.lit_paths.specs.Event.{init_events};
ghost use Rattle.lit_paths.specs.Plan.{AreEventsIn};
ghost use Rattle.lit_paths.specs.Internal.Combining.{AreCombinationPaths};
ghost use Rattle.lit_paths.specs.Internal.Walks.{count_of};

use crate::event::{Event, Events, Kind, Order3};
use crate::path::Path;
use crate::planning::agent_paths::AgentPaths;
use arrayvec::ArrayVec;
use lit_syntax::AGENT_LIMIT;

/// The paths of a combination, agent by agent, and all its events.
#[derive(Drop)]
pub(crate) struct CombinationPaths {
    /// The number of each agent's path among the paths of that agent.
    pub numbers: ArrayVec<u16, AGENT_LIMIT>,
    /// The number of each agent's first event.
    pub firsts: ArrayVec<u8, AGENT_LIMIT>,
    pub events: Events,
}

impl CombinationPaths {
    /// No path, and no event.
    pub(crate) fn new() -> Self {
        CombinationPaths {
            numbers: ArrayVec::new(),
            firsts: ArrayVec::new(),
            events: Events::new(),
        }
    }
}

/// Replaces the list by the events that make a block.
fn make_events(events: &mut Events, bytes: u8)
    requires { bytes ≤ BLOCK_LIMIT }
    ensures { events.new.items ≡ init_events bytes }
{
    events.clear();
    for byte in 0..bytes {
        events.push(Event {
            kind: Kind::Write,
            order: Order3::Init,
            no_tear: true,
            first: byte,
            size: 1,
            payload: [0; 4],
            owner: None,
            place: byte,
        });
    }
}

/// Adds the events of a path.
fn push_events(events: &mut Events, path: &Path)
    requires { array_vec_len events.old + length path.now.events ≤ EVENT_LIMIT }
    ensures { events.new.items ≡ events.old.items ++ path.now.events }
{
    for event in path.events() {
        events.push(*event);
    }
}

/// Replaces `combination_paths` by those of a combination, by its number: the last agent's paths change first.
pub(crate) fn join(
    combination_paths: &mut CombinationPaths,
    paths: &AgentPaths<'_>,
    combination: usize,
)
    requires { combination < count_of paths.now.agents }
    ensures combination_paths { AreCombinationPaths paths.now combination combination_paths.new }
    ensures sound { AreEventsIn paths.now.bytes combination_paths.new.events.items }
{
    let mut later = paths.combinations();
    combination_paths.numbers.clear();
    combination_paths.firsts.clear();
    make_events(&mut combination_paths.events, paths.test().bytes());
    for agent in 0..paths.test().agents() {
        let count = paths.count(agent);
        later /= count;
        let number = combination / later % count;
        combination_paths.numbers.push(number as u16);
        combination_paths
            .firsts
            .push(combination_paths.events.len() as u8);
        push_events(&mut combination_paths.events, paths.path(agent, number));
    }
}
