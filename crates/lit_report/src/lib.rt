//! The text of a report on its way to a writer, through an output buffer; of the outcome of a schedule, and of refusals.
//!
//! `write_report` writes the report on a test, whose entries a `Printer` puts: `Alone` on the thread that calls, or `Pages`, which several
//! workers print, page by page; the text is the same. `write_quick_report`, `write_interleaving` and `write_read_fault` and its neighbours
//! write the other answers, and `verdict_on` finds the verdict. `put_entry` puts an outcome with its example, and an `EntryCache` has the
//! text that one entry shares with the entry before. `HasPutOn` says what a call that puts bytes does to a buffer and to the writer behind
//! it. The definitions stand in specs/: `ReportText`, `EntryText`, `RefusalText`, `Verdict`, `Counted` (a writer that counts what fails),
//! `Writing`, `ChoiceEvents`, and those of the caches; those in `Internal` serve private contracts.
#![tactic(auto)]

mod buffer;
mod cached_text;
mod choice_lines;
mod choice_sources;
mod counted;
mod digits;
mod entries;
mod entry_cache;
mod events;
mod fault;
pub mod laws;
mod memory;
mod pages;
mod printer;
mod refusal_writer;
mod registers;
mod report_writer;
mod source_lines;
mod text;
mod verdict;

pub use buffer::{Buffer, write_bytes};
pub use choice_lines::put_choice_lines;
pub use counted::Counted;
pub use entry_cache::{EntryCache, put_entry};
pub use fault::OutputFailed;
pub use pages::{Page, pages_for};
pub use printer::{Alone, Pages, Printer};
pub use refusal_writer::{write_plan_fault, write_read_fault, write_unknown_agent};
pub use registers::put_registers;
pub use report_writer::{write_interleaving, write_quick_report, write_report};
pub use verdict::{Verdict, verdict_from, verdict_on};
