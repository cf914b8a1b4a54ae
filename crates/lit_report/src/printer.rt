//! Who puts the entries of a report.

ghost use Rattle.std.specs.Prelude.{length};
ghost use Rattle.std.specs.List.{flat_map};
ghost use Rattle.lit_paths.specs.Choice.{choices_of};
ghost use Rattle.lit_report.specs.EntryText.{entry_text};
ghost use Rattle.lit_report.specs.Writing.{HasPutOn};
ghost use Rattle.lit_search.specs.Report.{IsReport, in_range};

use crate::buffer::Buffer;
use crate::counted::Counted;
use crate::pages::{Page, put_all, put_pages};
use lit_paths::Plan;
use lit_search::Found;
use std::alloc::Global;
use std::io::Write;
use std::thread::Threads;

/// Puts the entries of a report: workers page by page, or the thread that calls alone.
pub trait Printer {
    /// What `put` requires of a printer: of one with a runtime, that threads may share it.
    ghost ready: { Self → Type 0 };

    /// Puts an outcome and its example for each entry.
    fn put<W: Write>(
        &mut self,
        alloc: Global,
        buffer: &mut Buffer,
        output: &mut Counted<W>,
        plan: &Plan<'_>,
        found: &Found,
    )
        requires ready { ready self.old }
        requires report { IsReport plan.now (in_range 0 (length (choices_of plan.now))) found.now }
        ensures { HasPutOn W.contents output.old output.new buffer.old buffer.new
            (flat_map (entry_text plan.now) found.now.entries) };
}

/// The thread that calls.
#[derive(Drop)]
pub struct Alone;

impl Printer for Alone {
    ghost ready = { λ _. Unit {0} };

    fn put<W: Write>(
        &mut self,
        _alloc: Global,
        buffer: &mut Buffer,
        output: &mut Counted<W>,
        plan: &Plan<'_>,
        found: &Found,
    ) {
        put_all(buffer, output, plan, found);
    }
}

/// The pages that workers print, and the runtime whose threads the workers are on.
#[derive(Drop)]
pub struct Pages<'a, T> {
    pub rt: &'a T,
    /// The empty pages, as `pages_for` gives them.
    pub pages: Vec<Page>,
}

impl<T: Threads + Sync> Printer for Pages<'_, T> {
    ghost use Rattle.std.specs.Thread.{IsSync};

    ghost ready = { λ _. IsSync T.row };

    fn put<W: Write>(
        &mut self,
        alloc: Global,
        buffer: &mut Buffer,
        output: &mut Counted<W>,
        plan: &Plan<'_>,
        found: &Found,
    ) {
        put_pages(self.rt, alloc, buffer, output, plan, found, &mut self.pages);
    }
}
