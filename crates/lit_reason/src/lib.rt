//! The answer to why, printed: why no valid execution of a litmus test has an outcome of a class, an example where one has, what
//! refuses a choice, and which two events are in a data race; as text, or as a line of JSON.
//!
//! What it says of an execution it has from the calls of `lit_why`. Of an answer in words it is proved that its verdict, example, data race
//! or clause is true of the test that is asked about; the reason behind these, and JSON, are tested. Sums saturate where nothing proves
//! that they fit. The definitions stand in specs/: `Explained`, `AnswerText`, `OtherCondition`.
#![tactic(auto)]

mod attempts;
mod choices;
mod classes;
mod clauses;
mod cores;
mod cycles;
mod example;
mod execution;
mod explanation;
mod fault;
mod found;
mod guards;
mod json;
mod question;
mod races;
mod reasons;
mod refusals;
mod scene;
mod selection;
mod statements;
mod wording;

pub use explanation::{Answer, explain};
pub use fault::ReasonFault;
pub use lit_search::Class;
pub use question::{Asked, MOST, MOST_LIMIT, Question};
pub use selection::are_words;
