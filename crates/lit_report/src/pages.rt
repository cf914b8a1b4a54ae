//! The entries of a report, printed by several workers: each prints a page at a time, and the pages are put in their order.

ghost use Rattle.std.specs.Prelude.{◌<◌, ◌≤◌, All, IfOk, length};
ghost use Rattle.std.specs.List.{flat_map};
ghost use Rattle.std.specs.Thread.{IsSync};
ghost use Rattle.lit_paths.specs.Choice.{choices_of};
ghost use Rattle.lit_search.specs.Report.{IsReport, in_range};
ghost use Rattle.lit_report.specs.EntryText.{entry_text};
ghost use Rattle.lit_report.specs.Writing.{HasPutOn};
ghost use Rattle.lit_report.specs.Internal.Pages.{IsPage, page_text};

use crate::buffer::Buffer;
use crate::counted::Counted;
use crate::entries::put_entries;
use crate::memory::Memory;
use lit_paths::Plan;
use lit_search::Found;
use std::alloc::{AllocError, Global};
use std::io::Write;
use std::mem;
use std::thread::{Threads, join_mut};

/// How many entries a page has: so many that a thread for them is worth its start.
const PAGE_LIMIT: usize = 8_192;

/// How many pages each worker prints at the least. With fewer, to start threads and to get memory for pages takes as long as to print.
const FEW_PAGES: usize = 5;

/// A page: the text of the entries from one place up to another.
#[derive(Drop)]
pub struct Page {
    first: usize,
    end: usize,
    text: Vec<u8>,
    /// Whether there was memory for the text.
    is_printed: bool,
}

/// How many pages so many entries need, 1 at the least.
fn pages_of(entries: usize) -> usize
    ensures { 0 < result }
{
    entries.div_ceil(PAGE_LIMIT).max(1)
}

/// The empty pages for a report with so many entries: one for each worker that has some pages to print, or none where that is one
/// worker alone.
pub fn pages_for(alloc: Global, entries: usize, workers: usize) -> Result<Vec<Page>, AllocError>
    ensures few { IfOk result (λ pages. length pages.items ≤ workers) }
{
    let mut pages = Vec::new(alloc);
    let count = workers.min(pages_of(entries) / FEW_PAGES);
    if count > 1 {
        for _page in 0..count {
            pages.push(Page {
                first: 0,
                end: 0,
                text: Vec::new(alloc),
                is_printed: false,
            })?;
        }
    }
    Ok(pages)
}

/// Prints a page from an entry on.
fn print_page(alloc: Global, plan: &Plan<'_>, found: &Found, first: usize, page: &mut Page)
    requires { IsReport plan.now (in_range 0 (length (choices_of plan.now))) found.now }
    ensures { IsPage plan.now found.now page.new }
{
    page.first = first;
    page.end = found.len().min(first.saturating_add(PAGE_LIMIT));
    let mut bytes = mem::replace(&mut page.text, Vec::new(alloc));
    bytes.clear();
    let mut output = Counted::new(Memory { bytes });
    let mut buffer = Buffer::new();
    put_entries(&mut buffer, &mut output, plan, found, first, page.end);
    page.is_printed = buffer.finish(&mut output).is_ok();
    page.text = output.into_inner().bytes;
}

/// Prints pages, one behind another from an entry on, each on a thread of its own if there are threads. It splits the list in halves, as
/// `join_mut` joins two calls.
fn print_pages<T: Threads + Sync>(
    rt: &T,
    alloc: &Global,
    plan: &Plan<'_>,
    found: &Found,
    first: &usize,
    pages: &mut [Page],
)
    requires report { IsReport plan.now (in_range 0 (length (choices_of plan.now))) found.now }
    requires some { 0 < length pages.old }
    ensures { All (IsPage plan.now found.now) pages.new }
{
    if pages.len() == 1 {
        print_page(*alloc, plan, found, *first, &mut pages[0]);
        return;
    }
    let half = pages.len() / 2;
    let middle = &first.saturating_add(half.saturating_mul(PAGE_LIMIT));
    let (front, back) = pages.split_at_mut(half);
    join_mut(
        rt,
        &mut ||
            requires { IsSync T.row × IsReport plan.now (in_range 0 (length (choices_of plan.now))) found.now
                × (0 < length front.now) }
            ensures { All (IsPage plan.entry.now found.entry.now) front.exit.now }
        { print_pages(rt, alloc, plan, found, first, front) },
        &mut ||
            requires { IsSync T.row × IsReport plan.now (in_range 0 (length (choices_of plan.now))) found.now
                × (0 < length back.now) }
            ensures { All (IsPage plan.entry.now found.entry.now) back.exit.now }
        { print_pages(rt, alloc, plan, found, middle, back) },
    );
}

/// Puts the entries from a place on, as many as a page has, and gives the place behind them. The page has their text, unless there was no
/// memory for it: then they are printed here.
fn put_page<W: Write>(
    buffer: &mut Buffer,
    output: &mut Counted<W>,
    plan: &Plan<'_>,
    found: &Found,
    page: &Page,
    place: usize,
) -> usize
    requires report { IsReport plan.now (in_range 0 (length (choices_of plan.now))) found.now }
    requires page { IsPage plan.now found.now page.now }
    ensures more { place < length found.now.entries → place < result }
    ensures rising { place ≤ length found.now.entries → place ≤ result }
    ensures known { result ≤ length found.now.entries }
    ensures text { HasPutOn W.contents output.old output.new buffer.old buffer.new
        (page_text plan.now found.now place result) }
{
    let end = found.len().min(place.saturating_add(PAGE_LIMIT));
    // That it is the page from this place on is compared, not proved.
    if page.is_printed && page.first == place && page.end == end {
        buffer.put(output, page.text.as_slice());
    } else {
        put_entries(buffer, output, plan, found, place, end);
    }
    end
}

/// Puts the entries from a place on that these pages have, and gives the place behind them.
fn put_printed<W: Write>(
    buffer: &mut Buffer,
    output: &mut Counted<W>,
    plan: &Plan<'_>,
    found: &Found,
    pages: &[Page],
    first: usize,
) -> usize
    requires report { IsReport plan.now (in_range 0 (length (choices_of plan.now))) found.now }
    requires pages { All (IsPage plan.now found.now) pages.now }
    requires some { 0 < length pages.now }
    requires first { first < length found.now.entries }
    ensures more { first < result }
    ensures known { result ≤ length found.now.entries }
    ensures text { HasPutOn W.contents output.old output.new buffer.old buffer.new
        (page_text plan.now found.now first result) }
{
    let mut place = first;
    for index in 0..pages.len() {
        place = put_page(buffer, output, plan, found, &pages[index], place);
    }
    place
}

/// Puts an outcome and its example for each entry of a report, on the thread that calls.
pub(crate) fn put_all<W: Write>(
    buffer: &mut Buffer,
    output: &mut Counted<W>,
    plan: &Plan<'_>,
    found: &Found,
)
    requires report { IsReport plan.now (in_range 0 (length (choices_of plan.now))) found.now }
    ensures { HasPutOn W.contents output.old output.new buffer.old buffer.new
        (flat_map (entry_text plan.now) found.now.entries) }
{
    put_entries(buffer, output, plan, found, 0, found.len());
}

/// Puts an outcome and its example for each entry of a report, page by page if there are pages.
pub(crate) fn put_pages<T: Threads + Sync, W: Write>(
    rt: &T,
    alloc: Global,
    buffer: &mut Buffer,
    output: &mut Counted<W>,
    plan: &Plan<'_>,
    found: &Found,
    pages: &mut [Page],
)
    requires report { IsReport plan.now (in_range 0 (length (choices_of plan.now))) found.now }
    ensures { HasPutOn W.contents output.old output.new buffer.old buffer.new
        (flat_map (entry_text plan.now) found.now.entries) }
{
    if pages.is_empty() {
        put_all(buffer, output, plan, found);
        return;
    }
    let mut place = 0;
    while place < found.len() {
        // The last round may need fewer pages, and so fewer threads.
        let count = pages.len().min(pages_of(found.len() - place));
        let round = &mut pages[..count];
        print_pages(rt, &alloc, plan, found, &place, round);
        place = put_printed(buffer, output, plan, found, round, place);
    }
}
