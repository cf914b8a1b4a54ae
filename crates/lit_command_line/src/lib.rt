//! The words of the command line: what they ask for, read by `clap`.
//!
//! `line` reads them into a `Line`: the `Options` of a run (`lit_options`), a schedule, and the file of the text; or it gives the error
//! that `clap` prints in place of a run. It knows nothing of the search, whose limits it takes from `lit_desk` and `lit_paths`.
//! `explain_words` and `no_words` print what is answered to words that ask for no run, by each program. The definitions stand in
//! specs/`Words`: they say by the command's own definition what the words ask for, and what they are refused for; and in
//! specs/`Answered`. `VERSION` stands here too, since `--version` prints it.
#![tactic(auto)]

mod answering;
mod command_line;
mod version;
mod words;

pub use answering::{explain_words, no_words, words_of};
pub use command_line::Line;
pub use version::VERSION;
pub use words::line;
