//! The syntax of a litmus text: what a test, a statement and a condition are, and the tokens that spell them.
//!
//! A `Test` is one that a text can say: `IsLitmus` is its invariant. The definitions stand in specs/: `Trees` and `Syntax`
//! (what a test is), `Tokens`, `Written` (conditions as they are written), `Parentheses`, `Forms` (of a line) and
//! `StatementOrder`; `Litmus` says which test a value of the program's types represents, and `SyntaxCodes` codes tests
//! as numbers.
#![tactic(auto)]

mod counts;
mod limits;
mod symbol;
mod syntax;
mod test;
mod writing;

pub use counts::{count_with_parts, statement_count};
pub use limits::{
    AGENT_LIMIT, BLOCK_LIMIT, COMPARED_LIMIT, DEPTH_LIMIT, DIGIT_LIMIT, IF_LIMIT, REGISTERS,
    TEXT_LIMIT, WORD_LIMIT,
};
pub use symbol::Symbol;
pub use syntax::{Cond, Stmt, View};
pub use test::Test;
pub use writing::writes;
