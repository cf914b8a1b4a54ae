//! The statements of an agent, with the lines on which they begin.

ghost use Rattle.std.specs.Prelude.{◌≡◌, ◌*◌, IfOk, OnOk, codes, drop, true};
ghost use Rattle.serde_json.specs.Data.{array, item, no_items, null};
ghost use Rattle.serde_json.specs.View.{view};
ghost use Rattle.lit_syntax.specs.Litmus.{statement_of, statements_of, window_of};
ghost use Rattle.lit_syntax.specs.StatementOrder.{count_with_parts, statement_count};
ghost use Rattle.lit_syntax.specs.Syntax.{window_size};
ghost use Rattle.lit_json.specs.StatementData.{access_data, count, if_data, next_line, statement_data, statements_data, window_name};

use lit_syntax::{Stmt, View};
use serde_json::{Value, json};
use std::alloc::{AllocError, Global};

/// The name of a view, as a text has it; `DV` of a DataView call, whatever its size.
fn view_name(view: View) -> &'static str
    ensures { result.now ≡ window_name (window_of view) }
{
    match view {
        View::U8 => "U8",
        View::U16 => "U16",
        View::U32 => "U32",
        View::D8 | View::D16 | View::D32 => "DV",
    }
}

/// How many bits an access through a view has.
fn bits_of(view: View) -> u64
    ensures { result ≡ 8 * window_size (window_of view) }
{
    match view {
        View::U8 | View::D8 => 8,
        View::U16 | View::D16 => 16,
        View::U32 | View::D32 => 32,
    }
}

/// The lines of statements that are still to come, the next one first.
#[derive(Drop)]
pub(crate) struct Lines<'a> {
    left: &'a [usize],
}

impl<'a> Lines<'a> {
    /// The lines of the statements of a text, in the order in which they are written.
    pub(crate) fn new(lines: &'a [usize]) -> Self
        ensures { result.left.now ≡ lines.now }
    {
        Lines { left: lines }
    }

    /// The next line; 0 where there is none, which no statement of the text has.
    fn next(&mut self) -> u64
        ensures line { result ≡ next_line self.old.left.now }
        ensures left { self.new.left.now ≡ drop 1 self.old.left.now }
    {
        let Some((line, after)) = self.left.split_first() else {
            return 0;
        };
        self.left = after;
        *line as u64
    }
}

/// A load.
fn load_value(
    alloc: Global,
    line: u64,
    reg: u8,
    window: View,
    index: u8,
    atomic: bool,
) -> Result<Value, AllocError>
    ensures { IfOk result (λ v. view v ≡ access_data line (codes "load") (count reg) (window_of window) index atomic no_items) }
{
    json!(in alloc; {
        "line": line, "kind": "load", "register": reg, "view": view_name(window), "bits": bits_of(window), "place": index,
        "atomic": atomic, "values": []
    })
}

/// A store.
fn store_value(
    alloc: Global,
    line: u64,
    window: View,
    index: u8,
    value: u32,
    atomic: bool,
) -> Result<Value, AllocError>
    ensures { IfOk result (λ v. view v
        ≡ access_data line (codes "store") null (window_of window) index atomic (item (count value) no_items)) }
{
    json!(in alloc; {
        "line": line, "kind": "store", "register": null, "view": view_name(window), "bits": bits_of(window), "place": index,
        "atomic": atomic, "values": [value]
    })
}

/// An exchange.
fn exchange_value(
    alloc: Global,
    line: u64,
    reg: u8,
    window: View,
    index: u8,
    value: u32,
) -> Result<Value, AllocError>
    ensures { IfOk result (λ v. view v
        ≡ access_data line (codes "exchange") (count reg) (window_of window) index true (item (count value) no_items)) }
{
    json!(in alloc; {
        "line": line, "kind": "exchange", "register": reg, "view": view_name(window), "bits": bits_of(window), "place": index,
        "atomic": true, "values": [value]
    })
}

/// A compareExchange.
fn compare_exchange_value(
    alloc: Global,
    line: u64,
    reg: u8,
    window: View,
    index: u8,
    expected: u32,
    value: u32,
) -> Result<Value, AllocError>
    ensures { IfOk result (λ v. view v ≡ access_data line (codes "compareExchange") (count reg) (window_of window) index true
        (item (count expected) (item (count value) no_items))) }
{
    json!(in alloc; {
        "line": line, "kind": "compareExchange", "register": reg, "view": view_name(window), "bits": bits_of(window),
        "place": index, "atomic": true, "values": [expected, value]
    })
}

/// An `if` with its parts.
fn if_value(
    alloc: Global,
    line: u64,
    reg: u8,
    equal: bool,
    value: u32,
    body: Value,
    other: Value,
) -> Result<Value, AllocError>
    ensures { IfOk result (λ v. view v ≡ if_data line reg equal value (view body) (view other)) }
{
    json!(in alloc; {
        "line": line, "kind": "if", "register": reg, "equal": equal, "number": value, "body": body, "other": other
    })
}

/// A statement, with those in its parts.
#[cycle(statements)]
fn statement_value(alloc: Global, lines: &mut Lines<'_>, stmt: &Stmt) -> Result<Value, AllocError>
    ensures value { IfOk result (λ v. view v ≡ statement_data lines.old.left.now (statement_of stmt.now)) }
    ensures left { OnOk result (lines.new.left.now ≡ drop (count_with_parts (statement_of stmt.now)) lines.old.left.now) }
{
    let line = lines.next();
    match stmt {
        Stmt::Load {
            reg,
            view,
            index,
            atomic,
        } => load_value(alloc, line, *reg, *view, *index, *atomic),
        Stmt::Store {
            view,
            index,
            value,
            atomic,
        } => store_value(alloc, line, *view, *index, *value, *atomic),
        Stmt::Exchange {
            reg,
            view,
            index,
            value,
        } => exchange_value(alloc, line, *reg, *view, *index, *value),
        Stmt::CompareExchange {
            reg,
            view,
            index,
            expected,
            value,
        } => compare_exchange_value(alloc, line, *reg, *view, *index, *expected, *value),
        Stmt::If {
            reg,
            equal,
            value,
            body,
            other,
        } => {
            let body = statements_value(alloc, lines, body)?;
            let other = statements_value(alloc, lines, other)?;
            if_value(alloc, line, *reg, *equal, *value, body, other)
        }
    }
}

/// Statements, in their order.
#[cycle(statements)]
pub(crate) fn statements_value(
    alloc: Global,
    lines: &mut Lines<'_>,
    body: &[Stmt],
) -> Result<Value, AllocError>
    ensures value { IfOk result (λ v. view v ≡ array (statements_data lines.old.left.now (statements_of body.now))) }
    ensures left { OnOk result (lines.new.left.now ≡ drop (statement_count (statements_of body.now)) lines.old.left.now) }
{
    let mut list = Vec::new(alloc);
    for stmt in body {
        list.push(statement_value(alloc, lines, stmt)?)?;
    }
    Ok(Value::Array(list))
}
