//! Cuts off the tokens that are neither words nor numbers.

ghost use Rattle.std.specs.Prelude.{◌≡◌, option_map};
ghost use Rattle.lit_read.specs.Internal.FirstToken.{pair_of, single_of, symbol_front};

use lit_syntax::Symbol;

#[tactic(auto, unfolding(crate::specs::Internal::FirstToken::pair_of))]
fn pair(first: u8, second: u8) -> Option<Symbol>
    ensures { result ≡ pair_of first second }
{
    match (first, second) {
        (b'=', b'=') => Some(Symbol::Same),
        (b'!', b'=') => Some(Symbol::Differs),
        (b'&', b'&') => Some(Symbol::And),
        (b'|', b'|') => Some(Symbol::Or),
        _ => None,
    }
}

#[tactic(auto, unfolding(crate::specs::Internal::FirstToken::single_of))]
fn single(byte: u8) -> Option<Symbol>
    ensures { result ≡ single_of byte }
{
    match byte {
        b'=' => Some(Symbol::Gives),
        b'!' => Some(Symbol::Not),
        b'[' => Some(Symbol::OpenBracket),
        b']' => Some(Symbol::CloseBracket),
        b'(' => Some(Symbol::OpenParen),
        b')' => Some(Symbol::CloseParen),
        b'{' => Some(Symbol::OpenBrace),
        b'}' => Some(Symbol::CloseBrace),
        b',' => Some(Symbol::Comma),
        b'.' => Some(Symbol::Dot),
        _ => None,
    }
}

/// The longest symbol at the front, and the bytes after it.
#[tactic(auto, unfolding(crate::specs::Internal::FirstToken::symbol_front))]
pub fn symbol_at(bytes: &[u8]) -> Option<(Symbol, &[u8])>
    ensures { option_map (λ p. (p.0, p.1.now)) result ≡ symbol_front bytes.now }
{
    let (first, rest) = bytes.split_first()?;
    if let Some((second, after)) = rest.split_first()
        && let Some(symbol) = pair(*first, *second)
    {
        return Some((symbol, after));
    }
    Some((single(*first)?, rest))
}
