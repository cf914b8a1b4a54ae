//! Parses the condition of a test from the marks of its `check` line, with a stack of open groups.

ghost use Rattle.std.specs.Prelude.{◌≡◌, ◌+◌, ◌≤◌, nat_le, IfOk, length, true};
ghost use Rattle.std.specs.List.{list_all};
ghost use Rattle.lit_syntax.specs.Litmus.{condition_of, conditions_view, agents_view};
ghost use Rattle.lit_read.specs.Spelling.{place_of};
ghost use Rattle.lit_read.specs.Internal.Built.{negated, all_of, any_of, with_operand, after_or, asked};
ghost use Rattle.lit_read.specs.Internal.Built.{build_step, build, begun, HasSmallNumber};
ghost use Rattle.lit_read.specs.Internal.Marks.{is_small};
ghost use Rattle.lit_read.specs.Internal.Views.{Returns, group_view, groups_view, mark_view, mark_views};

use crate::fault::ReadKind;
use crate::forms::marks::Mark;
use indexmap::IndexMap;
use lit_syntax::{AGENT_LIMIT, Cond, DEPTH_LIMIT, Stmt};
use std::alloc::{AllocError, Global};

/// The part of a parenthesized condition that is read so far: how many `!` and `(` are around it, the `!` before the next
/// operand, the conjunctions before the last `||`, and the operands behind it.
#[derive(Drop)]
pub struct Group {
    depth: usize,
    nots: usize,
    any: Vec<Cond>,
    all: Vec<Cond>,
}

/// The innermost open group, and the groups around it, the outermost first.
#[derive(Drop)]
pub struct Groups {
    inner: Group,
    outer: Vec<Group>,
}

/// The condition under `nots` times `!`.
fn negated(alloc: Global, cond: Cond, nots: usize) -> Result<Cond, AllocError>
    ensures { IfOk result (λ c. condition_of c ≡ negated nots (condition_of cond)) }
{
    let mut negated = cond;
    for _done in 0..nots {
        negated = Cond::Not(Box::new(alloc, negated)?);
    }
    Ok(negated)
}

/// All of the members; a lone one is itself.
fn all_of(members: Vec<Cond>) -> Cond
    ensures { condition_of result ≡ all_of (conditions_view members.items) }
{
    let mut members = members;
    if members.len() != 1 {
        return Cond::All(members);
    }
    match members.pop() {
        Some(member) => member,
        None => unreachable!(),
    }
}

/// Any of the members; a lone one is itself.
fn any_of(members: Vec<Cond>) -> Cond
    ensures { condition_of result ≡ any_of (conditions_view members.items) }
{
    let mut members = members;
    if members.len() != 1 {
        return Cond::Any(members);
    }
    match members.pop() {
        Some(member) => member,
        None => unreachable!(),
    }
}

/// The number of the agent with a name, or of agents where none has it.
fn place_of(agents: &IndexMap<String, Vec<Stmt>>, name: &str) -> usize
    ensures value { result ≡ place_of name.now (agents_view agents.now.entries) }
    ensures within { result ≤ length agents.now.entries }
{
    match agents.get_full(name) {
        Some((place, _, _)) => place,
        None => agents.len(),
    }
}

impl Group {
    ghost use Rattle.lit_read.specs.Internal.Built.{empty_group};

    fn new(alloc: Global, depth: usize) -> Group
        ensures { group_view result ≡ empty_group depth }
    {
        Group {
            depth,
            nots: 0,
            any: Vec::new(alloc),
            all: Vec::new(alloc),
        }
    }

    /// Whether no `!` and no `(` can follow.
    fn is_full(&self) -> bool
        ensures { result ≡ nat_le DEPTH_LIMIT (self.now.depth + self.now.nots) }
    {
        self.depth.saturating_add(self.nots) >= DEPTH_LIMIT
    }

    /// With one operand more.
    #[tactic(auto, using(crate::proofs::GroupLemmas::views_pushed))]
    fn with_operand(self, alloc: Global, cond: Cond) -> Result<Group, AllocError>
        ensures { IfOk result (λ f. group_view f ≡ with_operand (group_view self) (condition_of cond)) }
    {
        let mut all = self.all;
        all.push(negated(alloc, cond, self.nots)?)?;
        Ok(Group {
            depth: self.depth,
            nots: 0,
            any: self.any,
            all,
        })
    }

    /// The group after `||`: its operands so far become a conjunction.
    #[tactic(auto, using(crate::proofs::GroupLemmas::views_pushed))]
    fn after_or(self, alloc: Global) -> Result<Group, AllocError>
        ensures { IfOk result (λ f. group_view f ≡ after_or (group_view self)) }
    {
        let mut any = self.any;
        any.push(all_of(self.all))?;
        Ok(Group {
            depth: self.depth,
            nots: self.nots,
            any,
            all: Vec::new(alloc),
        })
    }

    /// The condition of the whole group.
    #[tactic(auto, using(crate::proofs::GroupLemmas::views_pushed))]
    fn asked(self) -> Result<Cond, AllocError>
        ensures { IfOk result (λ c. condition_of c ≡ asked (group_view self)) }
    {
        let mut any = self.any;
        any.push(all_of(self.all))?;
        Ok(any_of(any))
    }
}

impl Groups {
    /// With one mark more.
    #[tactic(auto, unfolding(crate::specs::Internal::Built::build_step))]
    fn with_mark(
        self,
        alloc: Global,
        agents: &IndexMap<String, Vec<Stmt>>,
        mark: Mark<'_>,
    ) -> Result<Groups, ReadKind>
        requires few { length agents.now.entries ≤ AGENT_LIMIT }
        requires small { HasSmallNumber (mark_view mark) }
        ensures { Returns groups_view result (build_step (agents_view agents.now.entries) (groups_view self) (mark_view mark.entry)) }
    {
        let mut inner = self.inner;
        let mut outer = self.outer;
        match mark {
            Mark::Bang => {
                if inner.is_full() {
                    return Err(ReadKind::TooDeep);
                }
                inner.nots += 1;
            }
            Mark::Open => {
                if inner.is_full() {
                    return Err(ReadKind::TooDeep);
                }
                let depth = inner.depth + inner.nots + 1;
                outer.push(inner)?;
                inner = Group::new(alloc, depth);
            }
            Mark::Close => {
                let Some(around) = outer.pop() else {
                    return Err(ReadKind::Syntax);
                };
                inner = around.with_operand(alloc, inner.asked()?)?;
            }
            Mark::And => {}
            Mark::Or => inner = inner.after_or(alloc)?,
            Mark::Is(comparison) => {
                let asked = Cond::Is {
                    agent: place_of(agents, comparison.agent) as u8,
                    reg: comparison.reg,
                    equal: comparison.equal,
                    value: comparison.value as u32,
                };
                inner = inner.with_operand(alloc, asked)?;
            }
        }
        Ok(Groups { inner, outer })
    }
}

/// The condition that the marks spell.
pub fn condition(
    alloc: Global,
    agents: &IndexMap<String, Vec<Stmt>>,
    marks: &[Mark<'_>],
) -> Result<Cond, ReadKind>
    requires few { length agents.now.entries ≤ AGENT_LIMIT }
    requires small { list_all (λ m. is_small (mark_view m)) marks.now ≡ true }
    ensures { Returns condition_of result (build (agents_view agents.now.entries) begun (mark_views marks.now)) }
{
    let mut groups = Groups {
        inner: Group::new(alloc, 0),
        outer: Vec::new(alloc),
    };
    for mark in marks {
        groups = groups.with_mark(alloc, agents, *mark)?;
    }
    Ok(groups.inner.asked()?)
}
