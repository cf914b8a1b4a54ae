//! The tokens of a line.

pub(crate) mod front;
pub(crate) mod symbols;

ghost use Rattle.std.specs.Prelude.{◌≡◌, ◌<◌, ◌≤◌, ◌^◌, length, IsTrue, IfSome, IfNone, IfOk, option_map};
ghost use Rattle.std.specs.List.{list_all, prefix_len};
ghost use Rattle.std.specs.Char.{is_ascii_digit};
ghost use Rattle.lit_syntax.specs.Tokens.{CutsInto, CannotBeCut, is_blank, begins_word, is_in_word, digits_value};
ghost use Rattle.lit_read.specs.Internal.FirstToken.{word_front, number_front, token_front, is_comment, after_blanks};
ghost use Rattle.lit_read.specs.Internal.Views.{token_view, token_views};

use crate::tokens::symbols::symbol_at;
use lit_syntax::{DIGIT_LIMIT, Symbol, WORD_LIMIT};
use std::alloc::{AllocError, Global};

/// A token of a line.
#[derive(Clone, Copy, Debug)]
pub enum Token<'a> {
    /// A letter or `_`, then letters, digits and `_`: 32 bytes at most.
    Word(&'a str),
    /// `0`, or up to ten digits that do not begin with 0.
    Number(u64),
    /// Anything else.
    Sign(Symbol),
}

fn is_blank(byte: u8) -> bool
    ensures { result ≡ is_blank byte }
{
    byte == b' ' || byte == b'\t' || byte == b'\r'
}

fn begins_word(byte: u8) -> bool
    ensures { result ≡ begins_word byte }
{
    byte.is_ascii_alphabetic() || byte == b'_'
}

fn is_in_word(byte: u8) -> bool
    ensures { result ≡ is_in_word byte }
{
    byte.is_ascii_alphanumeric() || byte == b'_'
}

/// How many blanks stand at the front.
fn blanks_len(bytes: &[u8]) -> usize
    ensures value { result ≡ prefix_len is_blank bytes.now }
    ensures within { result ≤ length bytes.now }
{
    bytes.iter().take_while(|byte| is_blank(**byte)).count()
}

/// The bytes after the blanks at the front.
fn after_blanks(bytes: &[u8]) -> &[u8]
    ensures { result.now ≡ after_blanks bytes.now }
{
    bytes.split_at(blanks_len(bytes)).1
}

/// How many letters, digits and `_` stand at the front.
fn word_len(bytes: &[u8]) -> usize
    ensures value { result ≡ prefix_len is_in_word bytes.now }
    ensures within { result ≤ length bytes.now }
{
    bytes.iter().take_while(|byte| is_in_word(**byte)).count()
}

/// How many digits stand at the front.
fn digits_len(bytes: &[u8]) -> usize
    ensures value { result ≡ prefix_len is_ascii_digit bytes.now }
    ensures within { result ≤ length bytes.now }
{
    bytes
        .iter()
        .take_while(|byte| byte.is_ascii_digit())
        .count()
}

/// The number that these digits stand for.
fn number_of(digits: &[u8]) -> u64
    requires each { IsTrue (list_all is_ascii_digit digits.now) }
    requires short { length digits.now ≤ DIGIT_LIMIT }
    ensures { result ≡ digits_value digits.now }
{
    let mut number: u64 = 0;
    for digit in digits {
        number = number * 10 + (*digit - b'0') as u64;
    }
    number
}

/// The word at the front, if it is no longer than words are, and the bytes after it.
#[tactic(auto, unfolding(crate::specs::Internal::FirstToken::word_front))]
fn word_at(bytes: &[u8]) -> Option<(Token<'_>, &[u8])>
    ensures { option_map (λ p. (token_view p.0, p.1.now)) result ≡ word_front bytes.now }
{
    let len = word_len(bytes);
    if len > WORD_LIMIT {
        return None;
    }
    let (word, rest) = bytes.split_at(len);
    match str::from_utf8(word) {
        Ok(word) => Some((Token::Word(word), rest)),
        Err(_) => unreachable!(),
    }
}

/// The number at the front, if its digits are one, and the bytes after it.
#[tactic(auto, unfolding(crate::specs::Internal::FirstToken::number_front))]
fn number_at(bytes: &[u8]) -> Option<(Token<'_>, &[u8])>
    requires { 0 < prefix_len is_ascii_digit bytes.now }
    ensures { option_map (λ p. (token_view p.0, p.1.now)) result ≡ number_front bytes.now }
{
    let len = digits_len(bytes);
    let (digits, rest) = bytes.split_at(len);
    if len > DIGIT_LIMIT || (len > 1 && digits[0] == b'0') {
        return None;
    }
    Some((Token::Number(number_of(digits)), rest))
}

/// The token at the front, and the bytes after it.
#[tactic(auto, unfolding(crate::specs::Internal::FirstToken::token_front))]
fn token_at(bytes: &[u8]) -> Option<(Token<'_>, &[u8])>
    ensures { option_map (λ p. (token_view p.0, p.1.now)) result ≡ token_front bytes.now }
{
    let first = *bytes.first()?;
    if begins_word(first) {
        return word_at(bytes);
    }
    if first.is_ascii_digit() {
        return number_at(bytes);
    }
    let (symbol, rest) = symbol_at(bytes)?;
    Some((Token::Sign(symbol), rest))
}

/// Whether nothing but a comment is left.
fn is_over(bytes: &[u8]) -> bool
    ensures { result ≡ is_comment bytes.now }
{
    bytes.is_empty() || (bytes.len() >= 2 && bytes[0] == b'/' && bytes[1] == b'/')
}

/// The tokens of a line, if it can be cut into tokens.
pub fn tokens_of(alloc: Global, line: &[u8]) -> Result<Option<Vec<Token<'_>>>, AllocError>
    ensures found { IfOk result (λ o. IfSome o (λ v. CutsInto line.now (token_views v.items))) }
    ensures absent { IfOk result (λ o. IfNone o (CannotBeCut line.now)) }
{
    let mut tokens = Vec::new(alloc);
    let mut rest = line;
    'line: loop {
        let bytes = after_blanks(rest);
        if is_over(bytes) {
            return Ok(Some(tokens));
        }
        let Some((token, after)) = token_at(bytes) else {
            return Ok(None);
        };
        tokens.push(token)?;
        rest = after;
    }
}
