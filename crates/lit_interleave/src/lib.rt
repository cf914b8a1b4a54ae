//! Interleavings: a test's agents in turns, on one block of bytes.
//!
//! `interleave` gives the outcome of a schedule, step by step. The laws say that this is the outcome of a valid execution, in which each
//! read takes what was written last before it. The definitions stand in `specs/`: `Interleaving` (what a turn does), `Sequential` (each
//! read takes what was written last before it in one order) and `InTurn` (the executions of a schedule).
#![tactic(auto)]

mod block;
mod deciding;
mod interleaving;
pub mod laws;
mod runner;

pub use interleaving::interleave;
