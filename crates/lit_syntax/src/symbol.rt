//! The tokens that are neither words nor numbers.

/// A symbol.
#[derive(Clone, Copy, Debug, PartialEq, Eq)]
pub enum Symbol {
    /// `==`
    Same,
    /// `!=`
    Differs,
    /// `&&`
    And,
    /// `||`
    Or,
    /// `=`
    Gives,
    /// `!`
    Not,
    /// `[`
    OpenBracket,
    /// `]`
    CloseBracket,
    /// `(`
    OpenParen,
    /// `)`
    CloseParen,
    /// `{`
    OpenBrace,
    /// `}`
    CloseBrace,
    /// `,`
    Comma,
    /// `.`
    Dot,
}
