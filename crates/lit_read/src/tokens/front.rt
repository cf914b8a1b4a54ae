//! Parsers for the front of a list of tokens.

ghost use Rattle.std.specs.Prelude.{◌≡◌, option_map};
ghost use Rattle.lit_syntax.specs.Litmus.{window_of};
ghost use Rattle.lit_read.specs.Internal.FormOfTokens.{after_sign, word_of, number_of, after_word, register_number};
ghost use Rattle.lit_read.specs.Internal.FormOfTokens.{register_of, window_named, view_of, relation_of, ended};
ghost use Rattle.lit_read.specs.Internal.Views.{token_views};

use crate::tokens::Token;
use lit_syntax::{REGISTERS, Symbol, View};

/// The tokens after this symbol.
#[tactic(auto, unfolding(crate::specs::Internal::FormOfTokens::after_sign))]
pub fn after_sign<'t, 'a>(tokens: &'t [Token<'a>], sign: Symbol) -> Option<&'t [Token<'a>]>
    ensures { option_map (λ rest. token_views rest.now) result ≡ after_sign (token_views tokens.now) sign }
{
    match tokens {
        [Token::Sign(symbol), rest @ ..] if *symbol == sign => Some(rest),
        _ => None,
    }
}

/// The word at the front, and the tokens after it.
#[tactic(auto, unfolding(crate::specs::Internal::FormOfTokens::word_of))]
pub fn word_of<'t, 'a>(tokens: &'t [Token<'a>]) -> Option<(&'a str, &'t [Token<'a>])>
    ensures { option_map (λ p. (p.0.now, token_views p.1.now)) result ≡ word_of (token_views tokens.now) }
{
    match tokens {
        [Token::Word(word), rest @ ..] => Some((*word, rest)),
        _ => None,
    }
}

/// The number at the front, and the tokens after it.
#[tactic(auto, unfolding(crate::specs::Internal::FormOfTokens::number_of))]
pub fn number_of<'t, 'a>(tokens: &'t [Token<'a>]) -> Option<(u64, &'t [Token<'a>])>
    ensures { option_map (λ p. (p.0, token_views p.1.now)) result ≡ number_of (token_views tokens.now) }
{
    match tokens {
        [Token::Number(number), rest @ ..] => Some((*number, rest)),
        _ => None,
    }
}

/// The tokens after this word.
#[tactic(auto, unfolding(crate::specs::Internal::FormOfTokens::after_word))]
pub fn after_word<'t, 'a>(tokens: &'t [Token<'a>], text: &str) -> Option<&'t [Token<'a>]>
    ensures { option_map (λ rest. token_views rest.now) result ≡ after_word (token_views tokens.now) text.now }
{
    let (word, rest) = word_of(tokens)?;
    if word == text { Some(rest) } else { None }
}

/// The number of a register: 0 for `r0`.
#[tactic(auto, unfolding(crate::specs::Internal::FormOfTokens::register_number))]
fn register_number(word: &str) -> Option<u8>
    ensures { result ≡ register_number word.now }
{
    match word.as_bytes() {
        [b'r', digit] if *digit >= b'0' && ((*digit - b'0') as usize) < REGISTERS => {
            Some(*digit - b'0')
        }
        _ => None,
    }
}

/// The register at the front, and the tokens after it.
#[tactic(auto, unfolding(crate::specs::Internal::FormOfTokens::register_of))]
pub fn register_of<'t, 'a>(tokens: &'t [Token<'a>]) -> Option<(u8, &'t [Token<'a>])>
    ensures { option_map (λ p. (p.0, token_views p.1.now)) result ≡ register_of (token_views tokens.now) }
{
    let (word, rest) = word_of(tokens)?;
    Some((register_number(word)?, rest))
}

/// The typed array of this name.
#[tactic(auto, unfolding(crate::specs::Internal::FormOfTokens::window_named))]
fn window_named(word: &str) -> Option<View>
    ensures { option_map window_of result ≡ window_named word.now }
{
    if word == "U8" {
        Some(View::U8)
    } else if word == "U16" {
        Some(View::U16)
    } else if word == "U32" {
        Some(View::U32)
    } else {
        None
    }
}

/// The typed array at the front, and the tokens after it.
#[tactic(auto, unfolding(crate::specs::Internal::FormOfTokens::view_of))]
pub fn view_of<'t, 'a>(tokens: &'t [Token<'a>]) -> Option<(View, &'t [Token<'a>])>
    ensures { option_map (λ p. (window_of p.0, token_views p.1.now)) result ≡ view_of (token_views tokens.now) }
{
    let (word, rest) = word_of(tokens)?;
    Some((window_named(word)?, rest))
}

/// Whether `==` stands at the front, or `!=`, and the tokens after it.
#[tactic(auto, unfolding(crate::specs::Internal::FormOfTokens::relation_of))]
pub fn relation_of<'t, 'a>(tokens: &'t [Token<'a>]) -> Option<(bool, &'t [Token<'a>])>
    ensures { option_map (λ p. (p.0, token_views p.1.now)) result ≡ relation_of (token_views tokens.now) }
{
    match after_sign(tokens, Symbol::Same) {
        Some(rest) => Some((true, rest)),
        None => Some((false, after_sign(tokens, Symbol::Differs)?)),
    }
}

/// The value, if no token is left.
pub fn ended<T: Drop>(tokens: &[Token<'_>], value: T) -> Option<T>
    ensures { result ≡ ended (token_views tokens.now) value }
{
    if tokens.is_empty() { Some(value) } else { None }
}
