//! The canonical lines of statements.

ghost use Rattle.std.specs.Prelude.{◌≡◌, ◌++◌, ◌∷◌, [], OnOk, string_bytes};
ghost use Rattle.lit_syntax.specs.Syntax.{Load, Store, Exchange, CompareExchange};
ghost use Rattle.lit_syntax.specs.Litmus.{window_of, statement_of, statements_of};
ghost use Rattle.lit_syntax.specs.Forms.{IfLine, window_word};
ghost use Rattle.lit_read.specs.Canonical.{statement_forms, statements_forms, else_forms};
ghost use Rattle.lit_read.specs.CanonicalText.{relation_text, read_text, store_text, statement_text, forms_text};

use lit_syntax::{Stmt, View};
use std::alloc::AllocError;

/// `==` or `!=`, between blanks.
pub fn relation(equal: bool) -> &'static str
    ensures { result.now ≡ relation_text equal }
{
    if equal { " == " } else { " != " }
}

/// The name of a typed array; nothing for a `DataView` call.
fn array_name(view: View) -> &'static str
    ensures { result.now ≡ window_word (window_of view) }
{
    match view {
        View::U8 => "U8",
        View::U16 => "U16",
        View::U32 => "U32",
        _ => "",
    }
}

/// Writes a load without `Atomics`, but not its register.
fn put_plain_load(out: &mut String, view: View, index: u8) -> Result<(), AllocError>
    ensures { OnOk result (string_bytes out.new ≡ string_bytes out.old ++ read_text (window_of view) index) }
{
    match view {
        View::D8 => write!(out, "DV.getUint8({index})"),
        View::D16 => write!(out, "DV.getUint16({index}, true)"),
        View::D32 => write!(out, "DV.getUint32({index}, true)"),
        _ => write!(out, "{}[{index}]", array_name(view)),
    }
}

/// Writes a store without `Atomics`.
fn put_plain_store(out: &mut String, view: View, index: u8, value: u32) -> Result<(), AllocError>
    ensures { OnOk result (string_bytes out.new ≡ string_bytes out.old ++ store_text (window_of view) index value) }
{
    match view {
        View::D8 => write!(out, "DV.setUint8({index}, {value})"),
        View::D16 => write!(out, "DV.setUint16({index}, {value}, true)"),
        View::D32 => write!(out, "DV.setUint32({index}, {value}, true)"),
        _ => write!(out, "{}[{index}] = {value}", array_name(view)),
    }
}

/// Writes `REG = ` and a load.
fn put_load(
    out: &mut String,
    reg: u8,
    view: View,
    index: u8,
    atomic: bool,
) -> Result<(), AllocError>
    ensures { OnOk result (string_bytes out.new ≡ string_bytes out.old ++ statement_text (Load reg (window_of view) index atomic)) }
{
    if atomic {
        return write!(out, "r{reg} = Atomics.load({}, {index})", array_name(view));
    }
    write!(out, "r{reg} = ")?;
    put_plain_load(out, view, index)
}

/// Writes a store.
fn put_store(
    out: &mut String,
    view: View,
    index: u8,
    value: u32,
    atomic: bool,
) -> Result<(), AllocError>
    ensures { OnOk result (string_bytes out.new ≡ string_bytes out.old ++ statement_text (Store (window_of view) index value atomic)) }
{
    if atomic {
        return write!(out, "Atomics.store({}, {index}, {value})", array_name(view));
    }
    put_plain_store(out, view, index, value)
}

/// Writes an exchange.
fn put_exchange(
    out: &mut String,
    reg: u8,
    view: View,
    index: u8,
    value: u32,
) -> Result<(), AllocError>
    ensures { OnOk result (string_bytes out.new ≡ string_bytes out.old ++ statement_text (Exchange reg (window_of view) index value)) }
{
    write!(
        out,
        "r{reg} = Atomics.exchange({}, {index}, {value})",
        array_name(view)
    )
}

/// Writes a compareExchange.
fn put_compare_exchange(
    out: &mut String,
    reg: u8,
    view: View,
    index: u8,
    expected: u32,
    value: u32,
) -> Result<(), AllocError>
    ensures { OnOk result
        (string_bytes out.new ≡ string_bytes out.old ++ statement_text (CompareExchange reg (window_of view) index expected value)) }
{
    write!(
        out,
        "r{reg} = Atomics.compareExchange({}, {index}, {expected}, {value})",
        array_name(view)
    )
}

/// Writes the line of an access, but not its end; nothing for an `if`.
fn put_access(out: &mut String, stmt: &Stmt) -> Result<(), AllocError>
    ensures { OnOk result (string_bytes out.new ≡ string_bytes out.old ++ statement_text (statement_of stmt.now)) }
{
    match stmt {
        Stmt::Load {
            reg,
            view,
            index,
            atomic,
        } => put_load(out, *reg, *view, *index, *atomic),
        Stmt::Store {
            view,
            index,
            value,
            atomic,
        } => put_store(out, *view, *index, *value, *atomic),
        Stmt::Exchange {
            reg,
            view,
            index,
            value,
        } => put_exchange(out, *reg, *view, *index, *value),
        Stmt::CompareExchange {
            reg,
            view,
            index,
            expected,
            value,
        } => put_compare_exchange(out, *reg, *view, *index, *expected, *value),
        Stmt::If { .. } => Ok(()),
    }
}

/// Writes an `if` line.
fn put_if(out: &mut String, reg: u8, equal: bool, value: u32) -> Result<(), AllocError>
    ensures { OnOk result (string_bytes out.new ≡ string_bytes out.old ++ forms_text (IfLine reg equal value ∷ [])) }
{
    write!(out, "if r{reg}{}{value} {{\n", relation(equal))
}

/// Writes the lines of a statement.
#[cycle(statements)]
fn put_statement(out: &mut String, stmt: &Stmt) -> Result<(), AllocError>
    ensures { OnOk result (string_bytes out.new ≡ string_bytes out.old ++ forms_text (statement_forms (statement_of stmt.now))) }
{
    match stmt {
        Stmt::If {
            reg,
            equal,
            value,
            body,
            other,
        } => {
            put_if(out, *reg, *equal, *value)?;
            put_statements(out, body)?;
            put_else(out, other)?;
            out.push_str("}\n")
        }
        Stmt::Load { .. }
        | Stmt::Store { .. }
        | Stmt::Exchange { .. }
        | Stmt::CompareExchange { .. } => {
            put_access(out, stmt)?;
            out.push_str("\n")
        }
    }
}

/// Writes the lines of statements.
#[cycle(statements)]
pub fn put_statements(out: &mut String, body: &[Stmt]) -> Result<(), AllocError>
    ensures { OnOk result (string_bytes out.new ≡ string_bytes out.old ++ forms_text (statements_forms (statements_of body.now))) }
{
    for stmt in body {
        put_statement(out, stmt)?;
    }
    Ok(())
}

/// Writes the else line and the lines of the else-part, if that has a statement.
#[cycle(statements)]
fn put_else(out: &mut String, other: &[Stmt]) -> Result<(), AllocError>
    ensures { OnOk result (string_bytes out.new ≡ string_bytes out.old ++ forms_text (else_forms (statements_of other.now))) }
{
    if other.is_empty() {
        return Ok(());
    }
    out.push_str("} else {\n")?;
    put_statements(out, other)
}
