//! The search for a litmus test's outcomes: which choices belong to valid executions, and with which outcomes.
//!
//! `search_range` gives the report of a range of a plan's choices: the outcomes of the valid executions, each with its
//! least example. The report of all choices has the outcome of each schedule that `lit_interleave` carries out. The definitions
//! stand in `specs/`: `Report`, `Merge`, `Collected` and `Reported`, over those of `lit_valid` and the crates below it.
#![tactic(auto)]

mod collector;
mod fault;
mod found;
mod interleaving;
pub mod laws;
mod searching;

pub use collector::Collector;
pub use fault::SearchFault;
pub use found::merging::merge;
pub use found::{Example, Found, Outcome};
pub use interleaving::interleave;
pub use lit_solve::{Heartbeat, NoHeartbeat};
pub use lit_valid::Class;
pub use searching::{first_in, search_range, search_range_with};
