//! The cache of an entry's text: an entry copies the text that it shares with the entry before (decision 59).

ghost use Rattle.std.specs.Prelude.{◌≡◌, ◌+◌, ◌<◌, ◌≤◌, All, IfSome, length};
ghost use Rattle.lit_paths.specs.Choice.{choices_of};
ghost use Rattle.lit_paths.specs.Plan.{choices_before};
ghost use Rattle.lit_valid.specs.Gives.{Gives, HasLeastOrder};
ghost use Rattle.lit_report.specs.EntryText.{line, entry_text};
ghost use Rattle.lit_report.specs.EntryCache.{HoldsOutcome, HoldsOrder, IsCacheOf, first_head, first_value};
ghost use Rattle.lit_report.specs.EntryCache.{outcome_head, outcome_text, order_line};
ghost use Rattle.lit_report.specs.Writing.{HasPutOn};

use crate::buffer::Buffer;
use crate::cached_text::CachedText;
use crate::choice_sources::ChoiceSources;
use crate::counted::Counted;
use crate::events::put_events;
use crate::registers::{put_register_head, put_registers};
use crate::source_lines::{CachedLines, put_lines};
use lit_paths::laws::combinations_are_listed;
use lit_paths::{Combination, Event, Plan};
use lit_syntax::Test;
use std::io::Write;

/// The cached line of an outcome up to its last value, with the values in it.
#[derive(Drop)]
pub(crate) struct CachedOutcome<'f> {
    values: &'f [u32],
    text: CachedText,
}

/// The cached line of an order, with the order.
#[derive(Drop)]
pub(crate) struct CachedOrder<'f> {
    order: &'f [u8],
    text: CachedText,
}

/// The sources and the text that an entry can share with the one before.
#[derive(Drop)]
pub struct EntryCache<'f> {
    sources: ChoiceSources,
    outcome: CachedOutcome<'f>,
    lines: CachedLines,
    order: CachedOrder<'f>,
}

impl<'f> EntryCache<'f> {
    ghost use Rattle.lit_syntax.specs.Syntax.{Litmus};
    ghost use Rattle.std.specs.Prelude.{ℕ};

    /// An empty cache.
    pub fn new() -> Self
        ensures { (t : Litmus) (c : ℕ) → IsCacheOf t c result }
    {
        let sources = ChoiceSources::new();
        let outcome = CachedText::new();
        let lines = CachedLines::new();
        let order = CachedText::new();
        EntryCache {
            sources,
            outcome: CachedOutcome {
                values: &[],
                text: outcome,
            },
            lines,
            order: CachedOrder {
                order: &[],
                text: order,
            },
        }
    }
}

/// Puts the first of these registers up to its value, if there is one.
fn put_first<W: Write>(
    buffer: &mut Buffer,
    output: &mut Counted<W>,
    test: &Test,
    names: &[(u8, u8)],
)
    requires known { All (λ name. name.0 < length test.now.agents) names.now }
    ensures { HasPutOn W.contents output.old output.new buffer.old buffer.new
        (first_head test.now names.now) }
{
    if let [name, ..] = names {
        put_register_head(buffer, output, test, *name);
    }
}

/// Puts the line of an outcome up to the first value that is not among these.
fn put_values<W: Write>(
    buffer: &mut Buffer,
    output: &mut Counted<W>,
    test: &Test,
    names: &[(u8, u8)],
    values: &[u32],
)
    requires known { All (λ name. name.0 < length test.now.agents) names.now }
    requires named { length values.now ≤ length names.now }
    ensures { HasPutOn W.contents output.old output.new buffer.old buffer.new
        (outcome_head test.now names.now values.now) }
{
    buffer.put(output, b"outcome");
    put_registers(buffer, output, test, names, values);
    put_first(buffer, output, test, &names[values.len()..]);
}

/// Caches the line that `put_values` puts, unless it is too long. It prints the line only where the cache does not have it.
fn cache_values<'f>(
    cached: &mut CachedOutcome<'f>,
    test: &Test,
    names: &[(u8, u8)],
    values: &'f [u32],
)
    requires known { All (λ name. name.0 < length test.now.agents) names.now }
    requires named { length values.now ≤ length names.now }
    requires cached { HoldsOutcome test.now names.now cached.old }
    ensures cached { HoldsOutcome test.now names.now cached.new }
    ensures values { cached.new.values.now ≡ values.now }
{
    if cached.text.is_cached() && cached.values == values {
        return;
    }
    cached.values = values;
    cached.text.begin();
    put_values(
        &mut cached.text.buffer,
        &mut cached.text.nowhere,
        test,
        names,
        values,
    );
}

/// Puts the line that `put_values` puts, from the cache where it has it.
fn put_cached_values<'f, W: Write>(
    buffer: &mut Buffer,
    output: &mut Counted<W>,
    test: &Test,
    names: &[(u8, u8)],
    values: &'f [u32],
    cached: &mut CachedOutcome<'f>,
)
    requires known { All (λ name. name.0 < length test.now.agents) names.now }
    requires named { length values.now ≤ length names.now }
    requires cached { HoldsOutcome test.now names.now cached.old }
    ensures cached { HoldsOutcome test.now names.now cached.new }
    ensures text { HasPutOn W.contents output.old output.new buffer.old buffer.new
        (outcome_head test.now names.now values.now) }
{
    cache_values(cached, test, names, values);
    if cached.text.is_cached() {
        buffer.put(output, cached.text.text());
        return;
    }
    put_values(buffer, output, test, names, values);
}

/// Puts a value, if there is one.
fn put_last<W: Write>(buffer: &mut Buffer, output: &mut Counted<W>, values: &[u32])
    ensures { HasPutOn W.contents output.old output.new buffer.old buffer.new (first_value values.now) }
{
    if let [value, ..] = values {
        buffer.put_number(output, *value as u64);
    }
}

/// Puts the line of an outcome. Mostly only its last value differs from the outcome before, so the cache has the text up to it.
fn put_outcome<'f, W: Write>(
    buffer: &mut Buffer,
    output: &mut Counted<W>,
    test: &Test,
    names: &[(u8, u8)],
    outcome: &'f [u32],
    cached: &mut CachedOutcome<'f>,
)
    requires known { All (λ name. name.0 < length test.now.agents) names.now }
    requires one_each { length outcome.now ≡ length names.now }
    requires cached { HoldsOutcome test.now names.now cached.old }
    ensures cached { HoldsOutcome test.now names.now cached.new }
    ensures text { HasPutOn W.contents output.old output.new buffer.old buffer.new
        (line (outcome_text test.now names.now outcome.now)) }
{
    // An outcome without registers has no last value.
    let count = outcome.len().saturating_sub(1);
    let (values, last) = outcome.split_at(count);
    put_cached_values(buffer, output, test, names, values, cached);
    put_last(buffer, output, last);
    buffer.put_byte(output, b'\n');
}

/// Puts the line of an order.
fn put_order<W: Write>(
    buffer: &mut Buffer,
    output: &mut Counted<W>,
    test: &Test,
    events: &[Event],
    order: &[u8],
)
    requires owned { All (λ e. IfSome e.owner (λ agent. agent < length test.now.agents)) events.now }
    requires known { All (λ n. n < length events.now) order.now }
    ensures { HasPutOn W.contents output.old output.new buffer.old buffer.new
        (order_line test.now events.now order.now) }
{
    buffer.put(output, b"  order");
    put_events(buffer, output, test, events, order);
    buffer.put_byte(output, b'\n');
}

/// Caches the line of an order, unless it is too long. It prints the line only where the cache does not have it.
fn cache_order<'f>(cached: &mut CachedOrder<'f>, test: &Test, events: &[Event], order: &'f [u8])
    requires owned { All (λ e. IfSome e.owner (λ agent. agent < length test.now.agents)) events.now }
    requires known { All (λ n. n < length events.now) order.now }
    requires cached { HoldsOrder test.now events.now cached.old }
    ensures cached { HoldsOrder test.now events.now cached.new }
    ensures order { cached.new.order.now ≡ order.now }
{
    if cached.text.is_cached() && cached.order == order {
        return;
    }
    cached.order = order;
    cached.text.begin();
    put_order(
        &mut cached.text.buffer,
        &mut cached.text.nowhere,
        test,
        events,
        order,
    );
}

/// Puts the line of an order, from the cache where it has it. Mostly the order is that of the entry before.
fn put_cached_order<'f, W: Write>(
    buffer: &mut Buffer,
    output: &mut Counted<W>,
    test: &Test,
    events: &[Event],
    order: &'f [u8],
    cached: &mut CachedOrder<'f>,
)
    requires owned { All (λ e. IfSome e.owner (λ agent. agent < length test.now.agents)) events.now }
    requires known { All (λ n. n < length events.now) order.now }
    requires cached { HoldsOrder test.now events.now cached.old }
    ensures cached { HoldsOrder test.now events.now cached.new }
    ensures text { HasPutOn W.contents output.old output.new buffer.old buffer.new
        (order_line test.now events.now order.now) }
{
    cache_order(cached, test, events, order);
    if cached.text.is_cached() {
        buffer.put(output, cached.text.text());
        return;
    }
    put_order(buffer, output, test, events, order);
}

/// Enters the combination of a choice, unless it is entered. It then drops what is cached of the other combination.
fn enter_for<'p>(
    plan: &'p Plan<'p>,
    entered: &mut Combination<'p>,
    choice: u64,
    cache: &mut EntryCache<'_>,
)
    requires plan { entered.old.0 ≡ plan.now }
    requires known { choice < length (choices_of plan.now) }
    requires cache { IsCacheOf plan.now entered.old.1 cache.old }
    ensures plan { entered.new.0 ≡ plan.now }
    ensures low { choices_before entered.new.0 entered.new.1 ≤ choice }
    ensures high { choice < choices_before entered.new.0 (entered.new.1 + 1) }
    ensures cache { IsCacheOf plan.now entered.new.1 cache.new }
{
    if entered.first() <= choice && choice < entered.end() {
        return;
    }
    plan.reenter(entered, plan.combination(choice));
    cache.sources.forget();
    cache.lines.forget();
    cache.order.text.forget();
}

/// Puts an outcome and its example, by the example's choice and order. It enters the choice's combination, unless that is entered.
pub fn put_entry<'p, 'f, W: Write>(
    buffer: &mut Buffer,
    output: &mut Counted<W>,
    plan: &'p Plan<'p>,
    combination: &mut Combination<'p>,
    outcome: &'f [u32],
    choice: u64,
    order: &'f [u8],
    cache: &mut EntryCache<'f>,
)
    requires plan { combination.old.0 ≡ plan.now }
    requires known { choice < length (choices_of plan.now) }
    requires gives { Gives plan.now choice outcome.now }
    requires least_order { HasLeastOrder plan.now choice order.now }
    requires cache { IsCacheOf plan.now combination.old.1 cache.old }
    ensures plan { combination.new.0 ≡ plan.now }
    ensures cache { IsCacheOf plan.now combination.new.1 cache.new }
    ensures text { HasPutOn W.contents output.old output.new buffer.old buffer.new
        (entry_text plan.now (record { outcome = outcome.now; choice = choice; order = order.now })) }
{
    // The law says that the list of combinations has each one once, so the entered combination is that of the choice.
    combinations_are_listed();
    let test = plan.test();
    enter_for(plan, combination, choice, cache);
    cache.sources.find(&*combination, choice);
    let events = combination.events();
    put_outcome(
        buffer,
        output,
        test,
        plan.names(),
        outcome,
        &mut cache.outcome,
    );
    put_lines(
        buffer,
        output,
        test,
        events,
        cache.sources.sources.as_slice(),
        &mut cache.lines,
    );
    put_cached_order(buffer, output, test, events, order, &mut cache.order);
}
