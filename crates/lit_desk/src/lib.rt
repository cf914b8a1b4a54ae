//! A desk: a work queue on atomic words, where threads claim numbers and share the least that they found.
//!
//! A `Desk` gives the numbers below its count of pieces out to its places, each number to one place. Each place tells
//! numbers in two classes and looks at what was told, no higher than what it told or saw itself. `Desk::close` says what all places did:
//! the numbers drawn are those below `drawn`, each once, and `met` and `unmet` are the least told. This holds however the
//! threads take turns; which place gets what, progress and time are left open. The definitions stand in `specs/Desk.antt`.
#![tactic(auto)]

mod account;
mod class;
mod desk;
mod fault;
mod limits;
mod place;
mod rule;
mod words;

pub use account::{Account, Numbers};
pub use class::Class2;
pub use desk::{Desk, Totals};
pub use fault::DeskFault;
pub use limits::{MOST_PIECES, MOST_SEATS};
pub use place::Place;
