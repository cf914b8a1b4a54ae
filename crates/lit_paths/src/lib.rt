//! The paths and choices of a litmus test, planned and counted.
//!
//! `plan` ensures that the choices below `total` are exactly the choices of the test, in their order: a path for each
//! agent, and a source for each byte read. The definitions stand in `specs/`, from `Event` to `Execution`.
#![tactic(auto)]

mod byte_reads;
mod combination;
mod event;
mod fault;
pub mod laws;
mod limits;
mod path;
mod planning;
mod registers;

pub use byte_reads::{ByteRead, ByteReads, Candidates};
pub use combination::Combination;
pub use event::{Event, Events, Kind, Order3, Sources, event_at};
pub use fault::PlanFault;
pub use limits::{
    ACCESS_LIMIT, BYTE_READ_LIMIT, CHOICE_LIMIT, COMBINATION_LIMIT, EVENT_LIMIT, NAME_LIMIT,
};
pub use path::makers::Makers;
pub use path::{Path, Tested};
pub use planning::Plan;
pub use planning::plan_builder::plan;
pub use registers::{OutcomeRegisters, meets, written_names};
