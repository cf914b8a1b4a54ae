//! The marks of the condition of a `check` line: its operators, parentheses and comparisons.

ghost use Rattle.std.specs.Prelude.{◌≡◌, ◌<◌, ◌≤◌, ◌+◌, ◌^◌, length, drop, option_map, IfSome, IfNone, IfOk};
ghost use Rattle.lit_read.specs.Internal.FormOfTokens.{comparison_of};
ghost use Rattle.lit_read.specs.Internal.Marks.{mark_of, follow, SpellsMarks, SpellsNoCondition};
ghost use Rattle.lit_read.specs.Internal.Views.{token_views, mark_view, mark_views, comparison_view};

use crate::tokens::Token;
use crate::tokens::front::{after_sign, number_of, register_of, relation_of, word_of};
use lit_syntax::Symbol;
use std::alloc::{AllocError, Global};

/// A comparison as a line has it: the agent by its name, and a number of any size.
#[derive(Clone, Copy, Debug)]
pub struct Comparison<'a> {
    pub agent: &'a str,
    pub reg: u8,
    pub equal: bool,
    pub value: u64,
}

/// A part of a condition: `!`, a parenthesis, `&&`, `||` or a comparison.
#[derive(Clone, Copy, Debug)]
pub enum Mark<'a> {
    Bang,
    Open,
    Close,
    And,
    Or,
    Is(Comparison<'a>),
}

/// `NAME.REG == NUM` or `NAME.REG != NUM`, and the tokens after it.
#[tactic(auto, unfolding(crate::specs::Internal::FormOfTokens::comparison_of))]
fn comparison_of<'t, 'a>(tokens: &'t [Token<'a>]) -> Option<(Comparison<'a>, &'t [Token<'a>])>
    ensures { option_map (λ p. (comparison_view p.0, token_views p.1.now)) result ≡ comparison_of (token_views tokens.now) }
{
    let (agent, rest) = word_of(tokens)?;
    let rest = after_sign(rest, Symbol::Dot)?;
    let (reg, rest) = register_of(rest)?;
    let (equal, rest) = relation_of(rest)?;
    let (value, rest) = number_of(rest)?;
    let comparison = Comparison {
        agent,
        reg,
        equal,
        value,
    };
    Some((comparison, rest))
}

/// The mark at the front, and the tokens after it.
#[tactic(auto, unfolding(crate::specs::Internal::Marks::mark_of))]
fn mark_of<'t, 'a>(tokens: &'t [Token<'a>]) -> Option<(Mark<'a>, &'t [Token<'a>])>
    ensures { option_map (λ p. (mark_view p.0, token_views p.1.now)) result ≡ mark_of (token_views tokens.now) }
{
    if let Some(rest) = after_sign(tokens, Symbol::Not) {
        return Some((Mark::Bang, rest));
    }
    if let Some(rest) = after_sign(tokens, Symbol::OpenParen) {
        return Some((Mark::Open, rest));
    }
    if let Some(rest) = after_sign(tokens, Symbol::CloseParen) {
        return Some((Mark::Close, rest));
    }
    if let Some(rest) = after_sign(tokens, Symbol::And) {
        return Some((Mark::And, rest));
    }
    if let Some(rest) = after_sign(tokens, Symbol::Or) {
        return Some((Mark::Or, rest));
    }
    let (comparison, rest) = comparison_of(tokens)?;
    Some((Mark::Is(comparison), rest))
}

/// The state after one more mark, if that can follow: whether an operand stands last, and how many parentheses are open.
#[tactic(auto, unfolding(crate::specs::Internal::Marks::follow))]
fn follow(behind: bool, opened: usize, mark: Mark<'_>) -> Option<(bool, usize)>
    requires { opened + 1 < 2 ^ 64 }
    ensures { result ≡ follow behind opened (mark_view mark.entry) }
{
    match mark {
        Mark::Bang if !behind => Some((false, opened)),
        Mark::Open if !behind => Some((false, opened + 1)),
        Mark::Is(_) if !behind => Some((true, opened)),
        Mark::Close if behind && opened > 0 => Some((true, opened - 1)),
        Mark::And | Mark::Or if behind => Some((false, opened)),
        _ => None,
    }
}

/// The mark at a place, and the place behind it.
fn mark_at<'a>(tokens: &[Token<'a>], at: usize) -> Option<(Mark<'a>, usize)>
    requires { at ≤ length tokens.now }
    ensures value { option_map (λ p. (mark_view p.0, token_views (drop p.1 tokens.now))) result
        ≡ mark_of (token_views (drop at tokens.now)) }
    ensures later { IfSome result (λ p. (at < p.1) × (p.1 ≤ length tokens.now)) }
{
    let (_, left) = tokens.split_at(at);
    let (mark, rest) = mark_of(left)?;
    Some((mark, tokens.len() - rest.len()))
}

/// The marks of a condition, if these tokens are one.
pub fn marks_of<'a>(
    alloc: Global,
    tokens: &[Token<'a>],
) -> Result<Option<Vec<Mark<'a>>>, AllocError>
    ensures found { IfOk result (λ o. IfSome o (λ v. SpellsMarks (token_views tokens.now) (mark_views v.items))) }
    ensures absent { IfOk result (λ o. IfNone o (SpellsNoCondition (token_views tokens.now))) }
{
    let mut marks = Vec::new(alloc);
    let mut behind = false;
    let mut opened = 0;
    let mut at = 0;
    while let Some((mark, next)) = mark_at(tokens, at) {
        let Some((is_behind, are_opened)) = follow(behind, opened, mark) else {
            return Ok(None);
        };
        marks.push(mark)?;
        behind = is_behind;
        opened = are_opened;
        at = next;
    }
    if at == tokens.len() && behind && opened == 0 {
        Ok(Some(marks))
    } else {
        Ok(None)
    }
}
