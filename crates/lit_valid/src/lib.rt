//! Valid executions of a litmus test: which candidate executions are valid, what they give, and which parts of choices have a completion.
//!
//! `IsValidExecution` in `specs/ValidExecution` is the definition. The laws say that a broken part has no completion, and that a complete
//! part that is not broken has one exactly if it has a memory-order.
#![tactic(auto)]

mod class;
pub mod laws;

pub use class::Class;
