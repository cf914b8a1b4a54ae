//! How a run works, and which report it writes.
//!
//! `Options` stand apart from the command line that reads them, so that a run needs no parser of words. Their limits are those of
//! `lit_desk` and `lit_paths`.
#![tactic(auto)]

mod options;

pub use options::Options;
