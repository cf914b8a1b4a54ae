//! The text of a schedule.

ghost use Rattle.std.specs.Prelude.{◌≡◌, ◌<◌, ◌≤◌, ◌==◌, ◌++◌, not, All, IsTrue, IfSome, IfOk, IfErr, IfNone, length, option_map};
ghost use Rattle.std.specs.List.{list_all, prefix_len};
ghost use Rattle.lit_syntax.specs.Syntax.{IsLitmus, agent_of};
ghost use Rattle.jslit.specs.Schedule.{NamesAgents};
ghost use Rattle.jslit.specs.Internal.Scheduling.{IsOfSchedule, NamesNone, behind_comma};

use crate::fault::RunFault;
use lit_syntax::Test;
use std::alloc::Global;

/// How many bytes stand before the first comma.
fn member_len(text: &[u8]) -> usize
    ensures value { result ≡ prefix_len (λ b. not (b == 44)) text.now }
    ensures within { result ≤ length text.now }
{
    text.iter().take_while(|byte| **byte != b',').count()
}

/// The first member of a text, and what stands behind its comma, if there is one.
fn split_member(text: &[u8]) -> (&[u8], Option<&[u8]>)
    ensures parts { text.now ≡ result.0.now ++ behind_comma (option_map (λ rest. rest.now) result.1) }
    ensures member { IsTrue (list_all (λ b. not (b == 44)) result.0.now) }
    ensures shorter { IfSome result.1 (λ rest. length rest.now < length text.now) }
{
    let (member, after) = text.split_at(member_len(text));
    match after {
        [] => (member, None),
        [_, rest @ ..] => (member, Some(rest)),
    }
}

/// The agent with a name.
fn agent_named(test: &Test, name: &[u8]) -> Option<u8>
    ensures found { IfSome result (λ agent. (agent < length test.now.agents) × ((agent_of test.now agent).name ≡ name.now)) }
    ensures none { IfNone result (NamesNone test.now name.now) }
    ensures litmus { IsLitmus test.now }
{
    for agent in 0..test.agents() {
        if test.agent_name(agent).as_bytes() == name {
            return Some(agent as u8);
        }
    }
    None
}

/// The agents that a schedule names, in the order of their turns. The empty text names none.
pub(crate) fn agents_of(alloc: Global, test: &Test, schedule: &[u8]) -> Result<Vec<u8>, RunFault>
    ensures named { IfOk result (λ agents. NamesAgents test.now schedule.now agents.items) }
    ensures fault { IfErr result (IsOfSchedule test.now schedule.now) }
{
    let mut agents = Vec::new(alloc);
    let mut rest = match schedule {
        [] => None,
        _ => Some(schedule),
    };
    while let Some(left) = rest {
        let (member, after) = split_member(left);
        let Some(agent) = agent_named(test, member) else {
            return Err(RunFault::UnknownAgent);
        };
        agents.push(agent)?;
        rest = after;
    }
    Ok(agents)
}
