//! Why outcomes of a litmus test are forbidden, and where a data race is: each answer is one that its reader can check by the
//! definitions of a valid execution, without trust in the search that found it.
//!
//! The definitions stand in `specs/`.
#![tactic(auto)]

mod asking;
mod attempt;
mod cases;
mod chains;
mod counting;
mod derivations;
mod domains;
mod enumeration;
pub mod laws;
mod mixing;
mod parts;
mod racing;
mod refusals;
mod representatives;
mod trials;
mod unmixing;

pub use attempt::Attempt;
pub use cases::covering::Case;
pub use cases::given::{Relations, between_of, is_box, relations_of};
pub use cases::{Cover, cover_of};
pub use chains::chain;
pub use chains::links::{Chain, Link, StepKind};
pub use derivations::derivation;
pub use derivations::lines::{DerivationLine, Reason};
pub use enumeration::attempts;
pub use mixing::{LeastMixing, least_mixing};
pub use parts::part_of;
pub use racing::{RacingPair, is_data_race, racing_pair};
pub use refusals::causes::{Incoherence, Refusal};
pub use refusals::refusal;
