//! The limits of a text.

/// Bytes of a text.
pub const TEXT_LIMIT: usize = 65_536;

/// Bytes of a word, so of a name.
pub const WORD_LIMIT: usize = 32;

/// Digits of a number.
pub const DIGIT_LIMIT: usize = 10;

/// Bytes of the block.
pub const BLOCK_LIMIT: usize = 32;

/// Agents of a test.
pub const AGENT_LIMIT: usize = 8;

/// Registers of an agent: `r0` up to `r7`.
pub const REGISTERS: usize = 8;

/// The greatest number that a condition may compare with.
pub const COMPARED_LIMIT: u64 = 4_294_967_295;

/// Nested `if`s of an agent.
pub const IF_LIMIT: usize = 8;

/// `!` and `(` around a comparison.
pub const DEPTH_LIMIT: usize = 8;
