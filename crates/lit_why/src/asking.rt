//! Which reads are asked about: by the guards of the paths, and by the condition (decision 142).

ghost use Rattle.std.specs.Prelude.{◌≡◌, ◌<◌, length};
ghost use Rattle.lit_paths.specs.Event.{event_at as event_of};
ghost use Rattle.lit_syntax.specs.declared.limits.TheConstants.{REGISTERS};
ghost use Rattle.lit_valid.specs.PartOutcome.{observed_read};
ghost use Rattle.lit_why.specs.Asked.{is_asked, is_named, is_tested, is_tested_by};
ghost use Rattle.lit_why.specs.Attempts.{agree};

use lit_paths::{Combination, Event, Plan, Tested, event_at};
use lit_rel::{payload_at, tested_read};

/// Whether one of these guards, on a path whose first event has this number, is on a read.
fn guards_ask(guards: &[Tested], first: u8, read: usize) -> bool
    ensures { result ≡ is_tested_by guards.now first read }
{
    for guard in guards {
        if tested_read(*guard, first) == Some(read) {
            return true;
        }
    }
    false
}

/// Whether a guard of a path is on a read.
fn paths_ask(combination: &Combination<'_>, read: usize) -> bool
    ensures { result ≡ is_tested combination.now.0 combination.now.1 read }
{
    for agent in 0..combination.test().agents() {
        let guards = combination.path(agent).tests();
        if guards_ask(guards, combination.first_event(agent), read) {
            return true;
        }
    }
    false
}

/// The number of the last read into a register, named by agent and register; `None` if it was not written.
fn last_read(combination: &Combination<'_>, name: (u8, u8)) -> Option<usize>
    requires agent { name.0 < length combination.now.0.agents }
    requires register { name.1 < REGISTERS }
    ensures { result ≡ observed_read combination.now.0 combination.now.1 name }
{
    let agent = usize::from(name.0);
    let first = combination.first_event(agent);
    combination
        .path(agent)
        .last(name.1)
        .map(|place| usize::from(first) + usize::from(place))
}

/// Whether the condition names a register of which this is the last read.
fn condition_asks(plan: &Plan<'_>, combination: &Combination<'_>, read: usize) -> bool
    requires { plan.now ≡ combination.now.0 }
    ensures { result ≡ is_named combination.now.0 combination.now.1 read }
{
    for name in plan.names() {
        if plan.asks(*name) && last_read(combination, *name) == Some(read) {
            return true;
        }
    }
    false
}

/// Whether a read is asked about, by a guard or by the condition. The combination is one of the plan's test.
pub(crate) fn asks(plan: &Plan<'_>, combination: &Combination<'_>, read: usize) -> bool
    requires { plan.now ≡ combination.now.0 }
    ensures { result ≡ is_asked combination.now.0 combination.now.1 read }
{
    paths_ask(combination, read) || condition_asks(plan, combination, read)
}

/// Whether two sources of a byte make no difference, where its read is asked about or is not.
pub(crate) fn do_agree(events: &[Event], asked: bool, byte: u8, source: usize, other: usize) -> bool
    requires source { source < length events.now }
    requires other { other < length events.now }
    ensures { result ≡ agree asked events.now byte source other }
{
    !asked
        || payload_at(event_at(events, other), byte) == payload_at(event_at(events, source), byte)
}
