//! The relations of a candidate execution, and parts of choices.
//!
//! A `Part` is a combination of a test's paths with sources for its first byte reads. Once each byte read has one, it answers the
//! relations of clause 29 of ECMA-262, whether the reads are coherent and tear free, what may not stand between a source and its read,
//! whether there is a data race, and the values read, each exactly as its definition in `specs/`.
#![tactic(auto)]

mod between;
mod event_set;
mod given;
pub mod laws;
mod part;
mod rows;

pub use between::{Between, Pair};
pub use event_set::EventSet;
pub use given::forbidden::others_between;
pub use given::peers::peers_of;
pub use given::races::{are_apart, has_racing_writes};
pub use given::reads::can_read_whole;
pub use given::relations::can_synchronize;
pub use given::values::payload_at;
pub use part::Part;
pub use part::false_guards::{has_false_guard, tested_read};
pub use part::fixed_steps::unsourced_order;
pub use part::guarded_bytes::is_source_refused;
pub use rows::Rows;
pub use rows::closing::close;
pub use rows::two_way_rows::{TwoWayRows, converse_of};
