//! Memory-orders of a candidate execution: the least list of its events that respects a relation and avoids forbidden triples.
//!
//! `OrderFinder` is the law: `least_order` gives the least such list, and `None` exactly where there is none.
//! `PlainFinder` and `ForcedFinder` obey it. The definitions stand in `specs/MemoryOrder`.
#![tactic(auto)]

mod constraints;
mod forced;
mod forced_finder;
mod forcing;
pub mod laws;
mod order;
mod plain_finder;
mod triple;

pub use forced::Forced;
pub use forced_finder::{ForcedFinder, least_of};
pub use forcing::{force, forced_precedence};
pub use order::{Order, OrderFinder};
pub use plain_finder::PlainFinder;
