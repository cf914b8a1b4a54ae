//! Parsers for the parts that several accesses share (decision 9).

ghost use Rattle.std.specs.Prelude.{◌≡◌, option_map};
ghost use Rattle.lit_syntax.specs.Litmus.{window_of};
ghost use Rattle.lit_read.specs.Internal.FormOfTokens.{front, given_to, element, stored, atomic_call};
ghost use Rattle.lit_read.specs.Internal.FormOfTokens.{view_call, argument, closed, little_endian};
ghost use Rattle.lit_read.specs.Internal.Views.{token_views};

use crate::tokens::Token;
use crate::tokens::front::{after_sign, after_word, number_of, register_of, view_of};
use lit_syntax::{Symbol, View};

/// `REG =`
#[tactic(auto, unfolding(crate::specs::Internal::FormOfTokens::front))]
pub fn given_to<'t, 'a>(tokens: &'t [Token<'a>]) -> Option<(u8, &'t [Token<'a>])>
    ensures { option_map (λ p. ((p.0, tt), token_views p.1.now)) result ≡ front given_to (token_views tokens.now) }
{
    let (reg, rest) = register_of(tokens)?;
    let rest = after_sign(rest, Symbol::Gives)?;
    Some((reg, rest))
}

/// `VIEW[NUM]`
#[tactic(auto, unfolding(crate::specs::Internal::FormOfTokens::front))]
pub fn element<'t, 'a>(tokens: &'t [Token<'a>]) -> Option<(View, u64, &'t [Token<'a>])>
    ensures { option_map (λ p. ((window_of p.0, (p.1, tt)), token_views p.2.now)) result ≡ front element (token_views tokens.now) }
{
    let (view, rest) = view_of(tokens)?;
    let rest = after_sign(rest, Symbol::OpenBracket)?;
    let (index, rest) = number_of(rest)?;
    let rest = after_sign(rest, Symbol::CloseBracket)?;
    Some((view, index, rest))
}

/// `= NUM`
#[tactic(auto, unfolding(crate::specs::Internal::FormOfTokens::front))]
pub fn stored<'t, 'a>(tokens: &'t [Token<'a>]) -> Option<(u64, &'t [Token<'a>])>
    ensures { option_map (λ p. ((p.0, tt), token_views p.1.now)) result ≡ front stored (token_views tokens.now) }
{
    let rest = after_sign(tokens, Symbol::Gives)?;
    number_of(rest)
}

/// `Atomics.NAME(VIEW, NUM`
#[tactic(auto, unfolding(crate::specs::Internal::FormOfTokens::front))]
pub fn atomic_call<'t, 'a>(
    tokens: &'t [Token<'a>],
    name: &str,
) -> Option<(View, u64, &'t [Token<'a>])>
    ensures { option_map (λ p. ((window_of p.0, (p.1, tt)), token_views p.2.now)) result
        ≡ front (atomic_call name.now) (token_views tokens.now) }
{
    let rest = after_word(tokens, "Atomics")?;
    let rest = after_sign(rest, Symbol::Dot)?;
    let rest = after_word(rest, name)?;
    let rest = after_sign(rest, Symbol::OpenParen)?;
    let (view, rest) = view_of(rest)?;
    let rest = after_sign(rest, Symbol::Comma)?;
    let (index, rest) = number_of(rest)?;
    Some((view, index, rest))
}

/// `DV.NAME(NUM`
#[tactic(auto, unfolding(crate::specs::Internal::FormOfTokens::front))]
pub fn view_call<'t, 'a>(tokens: &'t [Token<'a>], name: &str) -> Option<(u64, &'t [Token<'a>])>
    ensures { option_map (λ p. ((p.0, tt), token_views p.1.now)) result ≡ front (view_call name.now) (token_views tokens.now) }
{
    let rest = after_word(tokens, "DV")?;
    let rest = after_sign(rest, Symbol::Dot)?;
    let rest = after_word(rest, name)?;
    let rest = after_sign(rest, Symbol::OpenParen)?;
    number_of(rest)
}

/// `, NUM`
#[tactic(auto, unfolding(crate::specs::Internal::FormOfTokens::front))]
pub fn argument<'t, 'a>(tokens: &'t [Token<'a>]) -> Option<(u64, &'t [Token<'a>])>
    ensures { option_map (λ p. ((p.0, tt), token_views p.1.now)) result ≡ front argument (token_views tokens.now) }
{
    let rest = after_sign(tokens, Symbol::Comma)?;
    number_of(rest)
}

/// `)`
#[tactic(auto, unfolding(crate::specs::Internal::FormOfTokens::front))]
pub fn closed<'t, 'a>(tokens: &'t [Token<'a>]) -> Option<&'t [Token<'a>]>
    ensures { option_map (λ rest. (tt, token_views rest.now)) result ≡ front closed (token_views tokens.now) }
{
    after_sign(tokens, Symbol::CloseParen)
}

/// `, true)`
#[tactic(auto, unfolding(crate::specs::Internal::FormOfTokens::front))]
pub fn little_endian<'t, 'a>(tokens: &'t [Token<'a>]) -> Option<&'t [Token<'a>]>
    ensures { option_map (λ rest. (tt, token_views rest.now)) result ≡ front little_endian (token_views tokens.now) }
{
    let order = after_sign(tokens, Symbol::Comma)?;
    let closed = after_word(order, "true")?;
    after_sign(closed, Symbol::CloseParen)
}
