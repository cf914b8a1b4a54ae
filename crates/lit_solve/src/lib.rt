//! A finite-domain solver for litmus tests: which valid executions a box has. A box is a combination of paths with a set of candidates,
//! the domain, for each byte read; a completion of it is a valid execution on the combination whose every source lies in its domain.
//!
//! The definitions stand in `specs/`: `Box`, `Completion` and `Goal`.
#![tactic(auto)]

mod boxes;
mod branching;
mod collection;
mod condition_values;
mod decided;
mod descending;
mod disjunction;
mod domains;
mod effect;
mod enumeration;
mod filling;
mod forcing;
mod frame;
mod goal;
mod heartbeat;
mod independent;
pub mod laws;
mod least_search;
mod leaves;
mod node_consistency;
mod numbering;
mod observation;
mod opening;
mod ordering;
mod problem;
mod product;
mod propagation;
mod pruning;
mod read_values;
mod searching;
mod solver;
mod stepping;
mod table;

pub use boxes::Boxes;
pub use decided::Decided;
pub use domains::{Domains, candidates_of};
pub use goal::Goal;
pub use heartbeat::{Heartbeat, NoHeartbeat};
pub use least_search::Least;
pub use numbering::number_of;
pub use problem::Problem;
pub use solver::{exists, least, outcomes, outcomes_and_race};
pub use table::OutcomeTable;
