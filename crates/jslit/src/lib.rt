//! jslit: the outcomes that the memory model of ECMAScript allows a litmus test, and whether its condition holds.
//!
//! `run` reads a litmus text from a reader and writes its report to a writer: its contract is the theorem of this
//! repository, from the bytes in to the bytes out. `run_alone` is the same on the thread that calls. `run_schedule` carries a
//! test out step by step, in turns that the caller names. `program` is the program around both. The definitions stand in specs/:
//! `Answer` (what a run answers for a text; `lit_report` has the text of a report), `InterleavingAnswer`, `Schedule`, `Devices` and
//! `ProgramAnswer` (`lit_command_line` has what the words of the command line ask for); those in `Internal` serve private contracts, and
//! say how a fault of a lower crate becomes one of a run.
#![tactic(auto)]

mod command;
mod engine;
mod fault;
mod interleaving;
pub mod laws;
mod progress;
mod reading;
mod watch;

pub use command::{
    check, check_alone, check_schedule, check_watched, program, program_watched, say,
};
pub use engine::{run, run_alone, run_watched};
pub use fault::RunFault;
pub use interleaving::run_schedule;
pub use lit_command_line::{Line, VERSION, explain_words, line, no_words, words_of};
pub use lit_options::Options;
pub use lit_report::{Counted, write_bytes};
pub use progress::Progress;
pub use reading::read_text;
pub use watch::Watch;
