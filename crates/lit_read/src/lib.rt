//! Reads a litmus text: the test that it spells, or its first fault. Shows a test as its canonical text.
//!
//! `read` ensures that an `Ok` test is the one that the text spells, and that an `Err` is its first fault or out of
//! memory; `show` that an `Ok` is the canonical text, which spells the test where it has at most 65,536 bytes. The
//! definitions stand in specs/: `Lines`, `Structure`, `Faults`, `Spelling`, `StatementLines`, `Canonical` and
//! `CanonicalText`; what a test is, and the tokens and forms that spell it, in those of `lit_syntax`. The definitions in
//! the folder `Internal` serve private contracts alone.
#![tactic(auto)]

mod draft;
mod fault;
mod forms;
pub mod laws;
mod line_numbers;
mod lines;
mod reading;
mod showing;
mod tokens;

pub use fault::{ReadFault, ReadKind};
pub use line_numbers::statement_lines;
pub use lit_syntax::{
    AGENT_LIMIT, BLOCK_LIMIT, Cond, REGISTERS, Stmt, TEXT_LIMIT, Test, View, count_with_parts,
    statement_count, writes,
};
pub use reading::read;
pub use showing::show;
