//! Prints the names of events, and the lines of reads with their sources. What prints takes both the buffer and the output
//! (decision 58).

ghost use Rattle.std.specs.Prelude.{◌≡◌, ◌<◌, ◌≤◌, true, ◌++◌, All, IfSome, length, codes};
ghost use Rattle.std.specs.Fmt.{decimal};
ghost use Rattle.lit_paths.specs.Event.{does_read};
ghost use Rattle.lit_paths.specs.ByteReads.{byte_reads};
ghost use Rattle.lit_report.specs.EntryText.{event_name, names_text, source_line};
ghost use Rattle.lit_report.specs.ReadLine.{source_head, read_line, rest_after, lines_from};
ghost use Rattle.lit_report.specs.Writing.{HasPutOn};

use crate::buffer::Buffer;
use crate::counted::Counted;
use lit_paths::{Event, Kind};
use lit_syntax::Test;
use std::io::Write;

/// Puts a blank and the name of an access, by its agent's name and its place. It is not inlined, so that `put_event` stays small.
#[inline(never)]
fn put_long_access<W: Write>(buffer: &mut Buffer, output: &mut Counted<W>, agent: &[u8], place: u8)
    ensures { HasPutOn W.contents output.old output.new buffer.old buffer.new
        (codes " " ++ agent.now ++ codes "." ++ decimal place) }
{
    buffer.put_byte(output, b' ');
    buffer.put(output, agent);
    buffer.put_byte(output, b'.');
    buffer.put_number(output, place as u64);
}

/// Puts a blank and the name of an access, by its agent's name and its place. It puts a short name in one call.
fn put_access<W: Write>(buffer: &mut Buffer, output: &mut Counted<W>, agent: &[u8], place: u8)
    ensures { HasPutOn W.contents output.old output.new buffer.old buffer.new
        (codes " " ++ agent.now ++ codes "." ++ decimal place) }
{
    if agent.len() == 1 && place < 10 {
        buffer.put_four(output, [b' ', agent[0], b'.', b'0' + place]);
        return;
    }
    put_long_access(buffer, output, agent, place);
}

/// Puts a blank and the name of the event that makes a byte. It puts a short name in two calls, and is not inlined, as
/// `put_long_access`.
#[inline(never)]
fn put_init<W: Write>(buffer: &mut Buffer, output: &mut Counted<W>, byte: u8)
    ensures { HasPutOn W.contents output.old output.new buffer.old buffer.new
        ((codes " init[" ++ decimal byte) ++ codes "]") }
{
    if byte < 10 {
        buffer.put(output, b" ini");
        buffer.put_four(output, [b't', b'[', b'0' + byte, b']']);
        return;
    }
    buffer.put(output, b" init[");
    buffer.put_number(output, byte as u64);
    buffer.put_byte(output, b']');
}

/// Puts a blank and the name of an event: of a byte of the block, or of an agent's access.
pub(crate) fn put_event<W: Write>(
    buffer: &mut Buffer,
    output: &mut Counted<W>,
    test: &Test,
    event: &Event,
)
    requires { IfSome event.now.owner (λ agent. agent < length test.now.agents) }
    ensures { HasPutOn W.contents output.old output.new buffer.old buffer.new
        (codes " " ++ event_name test.now event.now) }
{
    let Some(agent) = event.owner else {
        put_init(buffer, output, event.place);
        return;
    };
    put_access(
        buffer,
        output,
        test.agent_name(agent as usize).as_bytes(),
        event.place,
    );
}

/// Puts a blank and the name of each event of a list of numbers.
pub(crate) fn put_events<W: Write>(
    buffer: &mut Buffer,
    output: &mut Counted<W>,
    test: &Test,
    events: &[Event],
    numbers: &[u8],
)
    requires owned { All (λ e. IfSome e.owner (λ agent. agent < length test.now.agents)) events.now }
    requires known { All (λ n. n < length events.now) numbers.now }
    ensures { HasPutOn W.contents output.old output.new buffer.old buffer.new
        (names_text test.now events.now numbers.now) }
{
    for number in numbers {
        put_event(buffer, output, test, &events[*number as usize]);
    }
}

/// Puts the line of a read up to its sources.
pub(crate) fn put_source_head<W: Write>(
    buffer: &mut Buffer,
    output: &mut Counted<W>,
    test: &Test,
    read: &Event,
)
    requires { IfSome read.now.owner (λ agent. agent < length test.now.agents) }
    ensures { HasPutOn W.contents output.old output.new buffer.old buffer.new
        (source_head test.now read.now) }
{
    buffer.put(output, b"  from");
    put_event(buffer, output, test, read);
}

/// Puts the line of a read, with the sources of its bytes.
fn put_source_line<W: Write>(
    buffer: &mut Buffer,
    output: &mut Counted<W>,
    test: &Test,
    events: &[Event],
    read: &Event,
    sources: &[u8],
)
    requires owner { IfSome read.now.owner (λ agent. agent < length test.now.agents) }
    requires owned { All (λ e. IfSome e.owner (λ agent. agent < length test.now.agents)) events.now }
    requires known { All (λ n. n < length events.now) sources.now }
    ensures { HasPutOn W.contents output.old output.new buffer.old buffer.new
        (source_line test.now events.now read.now sources.now) }
{
    put_source_head(buffer, output, test, read);
    put_events(buffer, output, test, events, sources);
    buffer.put_byte(output, b'\n');
}

/// Puts the line of an event if it reads: its sources are the first of `sources`. Gives the other sources.
fn put_read<'s, W: Write>(
    buffer: &mut Buffer,
    output: &mut Counted<W>,
    test: &Test,
    events: &[Event],
    event: &Event,
    sources: &'s [u8],
) -> &'s [u8]
    requires owner { IfSome event.now.owner (λ agent. agent < length test.now.agents) }
    requires owned { All (λ e. IfSome e.owner (λ agent. agent < length test.now.agents)) events.now }
    requires known { All (λ n. n < length events.now) sources.now }
    requires room { does_read event.now.kind ≡ true → event.now.size ≤ length sources.now }
    ensures text { HasPutOn W.contents output.old output.new buffer.old buffer.new
        (read_line test.now events.now event.now sources.now) }
    ensures rest { result.now ≡ rest_after event.now sources.now }
{
    match event.kind {
        Kind::Write => sources,
        Kind::Read | Kind::Modify => {
            let (own, rest) = sources.split_at(event.size as usize);
            put_source_line(buffer, output, test, events, event, own);
            rest
        }
    }
}

/// Puts a line for each read among a part of the events, with the sources of its bytes.
pub(crate) fn put_sources<W: Write>(
    buffer: &mut Buffer,
    output: &mut Counted<W>,
    test: &Test,
    events: &[Event],
    part: &[Event],
    sources: &[u8],
)
    requires owned { All (λ e. IfSome e.owner (λ agent. agent < length test.now.agents)) events.now }
    requires part { All (λ e. IfSome e.owner (λ agent. agent < length test.now.agents)) part.now }
    requires known { All (λ n. n < length events.now) sources.now }
    requires one_each { length sources.now ≡ length (byte_reads part.now) }
    ensures { HasPutOn W.contents output.old output.new buffer.old buffer.new
        (lines_from test.now events.now part.now sources.now) }
{
    let mut rest = sources;
    for event in part {
        rest = put_read(buffer, output, test, events, event, rest);
    }
}
