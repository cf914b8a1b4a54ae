//! The lines of a text on which its statements begin.

ghost use Rattle.std.specs.Prelude.{◌≡◌, ◌↔◌, ◌+◌, ◌≤◌, length, IsTrue, IfOk};
ghost use Rattle.lit_syntax.specs.Forms as shapes;
ghost use Rattle.lit_read.specs.StatementLines.{begins_statement, BeginsStatement, ListsStatementLines};
ghost use Rattle.lit_read.specs.Internal.Views.{Shows};

use crate::forms::{Form, Line, form_of};
use crate::lines::split_line;
use crate::tokens::tokens_of;
use std::alloc::{AllocError, Global};

/// Whether a statement begins with a line that says this.
fn is_first_line(said: &Line<'_>) -> bool
    ensures { (form : shapes.Form) → Shows said.now form → result ≡ begins_statement form }
{
    matches!(said, Line::Fixed(Form::Access(_) | Form::If { .. }))
}

/// Whether a statement begins with a line.
fn begins_statement(alloc: Global, line: &[u8]) -> Result<bool, AllocError>
    ensures { IfOk result (λ begins. IsTrue begins ↔ BeginsStatement line.now) }
{
    let Some(tokens) = tokens_of(alloc, line)? else {
        return Ok(false);
    };
    let found = form_of(alloc, &tokens)?;
    match found {
        Some(said) => Ok(is_first_line(&said)),
        None => Ok(false),
    }
}

/// The number of a text's next line. A text has no more lines than bytes and one.
fn number_after(number: usize, text: &[u8]) -> usize
    requires { number ≤ length text.now }
    ensures { result ≡ number + 1 }
{
    number + 1
}

/// The lines of a text on which a statement begins, from 1, rising: the line of an access, and the `if` line of an `if`.
/// The text may have faults: a line without a form begins no statement.
pub fn statement_lines(alloc: Global, text: &[u8]) -> Result<Vec<usize>, AllocError>
    ensures { IfOk result (λ lines. ListsStatementLines text.now lines.items) }
{
    let mut lines = Vec::new(alloc);
    let mut number: usize = 0;
    let mut rest = Some(text);
    while let Some(left) = rest {
        let (line, after) = split_line(left);
        number = number_after(number, text);
        if begins_statement(alloc, line)? {
            lines.push(number)?;
        }
        rest = after;
    }
    Ok(lines)
}
