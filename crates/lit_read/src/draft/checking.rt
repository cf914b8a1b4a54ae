//! Checks a condition: the numbers that it compares with, and the registers that it names.

ghost use Rattle.std.specs.Prelude.{◌≡◌, IfSome, IfNone};
ghost use Rattle.std.specs.List.{list_all};
ghost use Rattle.lit_syntax.specs.Syntax.{End};
ghost use Rattle.lit_syntax.specs.Litmus.{statements_of, agents_view};
ghost use Rattle.lit_read.specs.Internal.Marks.{is_small};
ghost use Rattle.lit_read.specs.Internal.State.{body_named, is_known_mark};
ghost use Rattle.lit_read.specs.Internal.Views.{mark_view};

use crate::forms::marks::Mark;
use indexmap::IndexMap;
use lit_syntax::{COMPARED_LIMIT, Stmt, writes};

/// Whether a number compared is one that a register can hold.
fn is_small(mark: &Mark<'_>) -> bool
    ensures { result ≡ is_small (mark_view mark.now) }
{
    match mark {
        Mark::Is(comparison) => comparison.value <= COMPARED_LIMIT,
        _ => true,
    }
}

/// Whether each number compared is one that a register can hold.
pub fn are_small(marks: &[Mark<'_>]) -> bool
    ensures { result ≡ list_all (λ m. is_small (mark_view m)) marks.now }
{
    marks.iter().all(|mark| is_small(mark))
}

/// The statements of the agent with a name.
fn body_of<'m>(agents: &'m IndexMap<String, Vec<Stmt>>, name: &str) -> Option<&'m [Stmt]>
    ensures found { IfSome result (λ body. statements_of body.now ≡ body_named name.now (agents_view agents.now.entries)) }
    ensures absent { IfNone result (body_named name.now (agents_view agents.now.entries) ≡ End) }
{
    let body = agents.get(name)?;
    Some(body.as_slice())
}

/// Whether a comparison names an agent that writes the register.
fn is_known(agents: &IndexMap<String, Vec<Stmt>>, mark: &Mark<'_>) -> bool
    ensures { result ≡ is_known_mark (agents_view agents.now.entries) (mark_view mark.now) }
{
    match mark {
        Mark::Is(comparison) => match body_of(agents, comparison.agent) {
            Some(body) => writes(body, comparison.reg),
            None => false,
        },
        _ => true,
    }
}

/// Whether each comparison names an agent that writes the register.
pub fn are_known(agents: &IndexMap<String, Vec<Stmt>>, marks: &[Mark<'_>]) -> bool
    ensures { result ≡ list_all (λ m. is_known_mark (agents_view agents.now.entries) (mark_view m)) marks.now }
{
    marks.iter().all(|mark| is_known(agents, mark))
}
