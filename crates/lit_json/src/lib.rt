//! What a litmus text says, as JSON for tools: the test with its statements, lines and condition, or the first fault; and the
//! limits and the version of the program. `docs/schemas/text.json` has the form.
//!
//! `text_value` gives all of it for a text, and `text_line` writes it as a line. Its members are values of `serde_json`, which writes
//! them. `specs/Told.antt` says what they are, `specs/StatementData.antt` what those of a test's agents are, and `specs/Line.antt` what
//! the line is.
#![tactic(auto)]

mod conditions;
mod counts;
mod faults;
mod limits;
mod line;
mod statements;
mod test;
mod text;

pub use limits::limits_value;
pub use line::{TextLine, text_line};
pub use text::{FORM, TextValue, text_value};
