//! Workers that search the choices of a plan in pieces, which they draw from a desk.
//!
//! `search` gives the report of all choices of a plan, and `quick` the least choice of each class of outcomes with its
//! least memory-order. Both say the same for every number of workers, every cutting into pieces, every gate and every
//! schedule of the threads. Callers with threads of their own call `work` and `hunt`, from which those two are built. The
//! definitions stand in `specs/`: `Pieces`, `Drawn`, `Hunted` and `Quick`.
#![tactic(auto)]

mod fault;
mod full_search;
mod gate;
pub mod laws;
mod limits;
mod pieces;
mod quick_answer;
mod quick_search;
mod quick_worker;
mod search_worker;
mod worker;

pub use fault::ShareFault;
pub use full_search::search;
pub use gate::{Gate, OpenGate};
pub use limits::{CUT_LIMIT, WORKER_LIMIT};
pub use quick_answer::Quick;
pub use quick_search::quick;
pub use quick_worker::hunt;
pub use search_worker::work;
