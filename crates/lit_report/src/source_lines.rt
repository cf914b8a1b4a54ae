//! The source lines of an entry: a line for each read with its sources. A cache has the lines that the entry before has, too
//! (decision 59).

ghost use Rattle.std.specs.Prelude.{◌≡◌, ◌<◌, ◌≤◌, true, All, IfSome, length, take, drop};
ghost use Rattle.lit_paths.specs.ByteReads.{byte_reads, byte_reads_from};
ghost use Rattle.lit_paths.specs.declared.limits.TheConstants.{BYTE_READ_LIMIT};
ghost use Rattle.lit_report.specs.EntryText.{from_lines};
ghost use Rattle.lit_report.specs.CachedLines.{HoldsLines};
ghost use Rattle.lit_report.specs.ReadLine.{OnlyFirstReads, first_source_head, lines_up_to, line_end};
ghost use Rattle.lit_report.specs.Writing.{HasPutOn};

use crate::buffer::Buffer;
use crate::cached_text::CachedText;
use crate::counted::Counted;
use crate::events::{put_events, put_source_head, put_sources};
use lit_paths::{Event, Sources};
use lit_syntax::Test;
use std::io::Write;

/// The cached lines: those of the reads among the first `part` events, with these sources, and behind them the line of the next event up
/// to its sources.
#[derive(Drop)]
pub(crate) struct CachedLines {
    part: usize,
    sources: Sources,
    text: CachedText,
}

impl CachedLines {
    /// No lines.
    pub(crate) fn new() -> Self
        ensures { result.text.buffer.failed ≡ true }
    {
        CachedLines {
            part: 0,
            sources: Sources::new(),
            text: CachedText::new(),
        }
    }

    /// Drops the lines.
    pub(crate) fn forget(&mut self)
        ensures { self.new.text.buffer.failed ≡ true }
    {
        self.text.forget();
    }
}

/// How many events are before the last one that reads, and how many bytes that one has. Where none reads: all events, and no byte.
fn last_read(events: &[Event]) -> (usize, usize)
    ensures known { result.0 ≤ length events.now }
    ensures last { OnlyFirstReads (drop result.0 events.now) }
    ensures size { result.1 ≡ length (byte_reads_from result.0 (drop result.0 events.now)) }
{
    let mut place = events.len();
    while place > 0 {
        place -= 1;
        if events[place].kind.does_read() {
            return (place, events[place].size as usize);
        }
    }
    (events.len(), 0)
}

/// Puts the line of the first of these events up to its sources, if there is one.
fn put_first_head<W: Write>(
    buffer: &mut Buffer,
    output: &mut Counted<W>,
    test: &Test,
    events: &[Event],
)
    requires owned { All (λ e. IfSome e.owner (λ agent. agent < length test.now.agents)) events.now }
    ensures { HasPutOn W.contents output.old output.new buffer.old buffer.new
        (first_source_head test.now events.now) }
{
    if let [read, ..] = events {
        put_source_head(buffer, output, test, read);
    }
}

/// Puts the lines of the reads among the first `part` events, and the line of the next event up to its sources.
fn put_front<W: Write>(
    buffer: &mut Buffer,
    output: &mut Counted<W>,
    test: &Test,
    events: &[Event],
    part: usize,
    sources: &[u8],
)
    requires owned { All (λ e. IfSome e.owner (λ agent. agent < length test.now.agents)) events.now }
    requires known { All (λ n. n < length events.now) sources.now }
    requires part { part ≤ length events.now }
    requires one_each { length sources.now ≡ length (byte_reads (take part events.now)) }
    ensures { HasPutOn W.contents output.old output.new buffer.old buffer.new
        (lines_up_to test.now events.now part sources.now) }
{
    let (first, last) = events.split_at(part);
    put_sources(buffer, output, test, events, first, sources);
    put_first_head(buffer, output, test, last);
}

/// Caches the lines that `put_front` puts, unless they are too long. It prints them only where the cache does not have them.
fn cache_lines(cached: &mut CachedLines, test: &Test, events: &[Event], part: usize, sources: &[u8])
    requires owned { All (λ e. IfSome e.owner (λ agent. agent < length test.now.agents)) events.now }
    requires known { All (λ n. n < length events.now) sources.now }
    requires part { part ≤ length events.now }
    requires one_each { length sources.now ≡ length (byte_reads (take part events.now)) }
    requires few { length sources.now ≤ BYTE_READ_LIMIT }
    requires cached { HoldsLines test.now events.now cached.old }
    ensures cached { HoldsLines test.now events.now cached.new }
    ensures part { cached.new.part ≡ part }
    ensures sources { cached.new.sources.items ≡ sources.now }
{
    if cached.text.is_cached() && cached.part == part && cached.sources.as_slice() == sources {
        return;
    }
    cached.part = part;
    cached.sources.clear();
    // There is room for a source of each byte read, so this can't fail.
    let _ = cached.sources.try_extend_from_slice(sources);
    cached.text.begin();
    put_front(
        &mut cached.text.buffer,
        &mut cached.text.nowhere,
        test,
        events,
        part,
        sources,
    );
}

/// Puts the lines that `put_front` puts, from the cache where it has them.
fn put_cached_lines<W: Write>(
    buffer: &mut Buffer,
    output: &mut Counted<W>,
    test: &Test,
    events: &[Event],
    part: usize,
    sources: &[u8],
    cached: &mut CachedLines,
)
    requires owned { All (λ e. IfSome e.owner (λ agent. agent < length test.now.agents)) events.now }
    requires known { All (λ n. n < length events.now) sources.now }
    requires part { part ≤ length events.now }
    requires one_each { length sources.now ≡ length (byte_reads (take part events.now)) }
    requires few { length sources.now ≤ BYTE_READ_LIMIT }
    requires cached { HoldsLines test.now events.now cached.old }
    ensures cached { HoldsLines test.now events.now cached.new }
    ensures text { HasPutOn W.contents output.old output.new buffer.old buffer.new
        (lines_up_to test.now events.now part sources.now) }
{
    cache_lines(cached, test, events, part, sources);
    if cached.text.is_cached() {
        buffer.put(output, cached.text.text());
        return;
    }
    put_front(buffer, output, test, events, part, sources);
}

/// Puts the sources of the first of the last events and the end of its line, if there is one.
fn put_line_end<W: Write>(
    buffer: &mut Buffer,
    output: &mut Counted<W>,
    test: &Test,
    events: &[Event],
    last: &[Event],
    sources: &[u8],
)
    requires owned { All (λ e. IfSome e.owner (λ agent. agent < length test.now.agents)) events.now }
    requires known { All (λ n. n < length events.now) sources.now }
    ensures { HasPutOn W.contents output.old output.new buffer.old buffer.new
        (line_end test.now events.now last.now sources.now) }
{
    if let [_read, ..] = last {
        put_events(buffer, output, test, events, sources);
        buffer.put_byte(output, b'\n');
    }
}

/// Puts a line for each read, with the sources of its bytes. Mostly only the sources of the last read differ from the entry before, so
/// the cache has the text up to these.
pub(crate) fn put_lines<W: Write>(
    buffer: &mut Buffer,
    output: &mut Counted<W>,
    test: &Test,
    events: &[Event],
    sources: &[u8],
    cached: &mut CachedLines,
)
    requires owned { All (λ e. IfSome e.owner (λ agent. agent < length test.now.agents)) events.now }
    requires known { All (λ n. n < length events.now) sources.now }
    requires one_each { length sources.now ≡ length (byte_reads events.now) }
    requires few { length sources.now ≤ BYTE_READ_LIMIT }
    requires cached { HoldsLines test.now events.now cached.old }
    ensures cached { HoldsLines test.now events.now cached.new }
    ensures text { HasPutOn W.contents output.old output.new buffer.old buffer.new
        (from_lines test.now events.now sources.now) }
{
    let (part, size) = last_read(events);
    let (own, last) = sources.split_at(sources.len() - size);
    put_cached_lines(buffer, output, test, events, part, own, cached);
    put_line_end(buffer, output, test, events, &events[part..], last);
}
