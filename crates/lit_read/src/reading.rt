//! Reads a whole text, line by line.

ghost use Rattle.std.specs.Prelude.{◌≡◌, ◌≢◌, ◌<◌, length, Ok, IfOk, IfErr, IsErrAnd, IfSome, IfNone};
ghost use Rattle.std.specs.List.{list_all};
ghost use Rattle.lit_read.specs.declared.fault.ReadKind.TheVariants.{TooLong};
ghost use Rattle.lit_syntax.specs.declared.limits.TheConstants.{TEXT_LIMIT};
ghost use Rattle.lit_read.specs.Faults.{is_allowed, IsReadFault};
ghost use Rattle.lit_syntax.specs.Forms.{Form};
ghost use Rattle.lit_read.specs.Spelling.{Spells};
ghost use Rattle.lit_read.specs.Internal.State.{IsState, IsUnfinished, Whole};
ghost use Rattle.lit_read.specs.Internal.Views.{state_view, Shows};
ghost use Rattle.lit_read.specs.Internal.LineSteps.{IsLine, IsNoLine, LineStep, LineFails};

use crate::draft::Draft;
use crate::fault::{ReadFault, ReadKind};
use crate::forms::{Line, form_of};
use crate::lines::split_line;
use crate::tokens::tokens_of;
use lit_syntax::{TEXT_LIMIT, Test};
use std::alloc::Global;

/// Whether a byte may stand in a text: 9, 10, 13 and 32 to 126.
fn is_allowed(byte: u8) -> bool
    ensures { result ≡ is_allowed byte }
{
    byte == b'\t' || byte == b'\n' || byte == b'\r' || (byte >= 32 && byte <= 126)
}

/// Whether each byte of a line may stand in a text.
fn are_allowed(line: &[u8]) -> bool
    ensures { result ≡ list_all is_allowed line.now }
{
    line.iter().all(|byte| is_allowed(*byte))
}

/// The form of a line.
fn line_form(alloc: Global, line: &[u8]) -> Result<Line<'_>, ReadKind>
    ensures ok { IfOk result (λ said. (form : Form) × Shows said form × IsLine line.now form) }
    ensures err { IfErr result (IsNoLine line.now) }
{
    if !are_allowed(line) {
        return Err(ReadKind::NotAscii);
    }
    let Some(tokens) = tokens_of(alloc, line)? else {
        return Err(ReadKind::Syntax);
    };
    let found = form_of(alloc, &tokens)?;
    match found {
        Some(form) => Ok(form),
        None => Err(ReadKind::Syntax),
    }
}

/// The draft after one more line.
fn add_line(alloc: Global, draft: Draft, line: &[u8]) -> Result<Draft, ReadKind>
    requires { IsState (state_view draft) }
    ensures ok { IfOk result (λ d. LineStep (state_view draft) line.now (Ok (state_view d))) }
    ensures err { IfErr result (LineFails (state_view draft) line.now) }
{
    let form = line_form(alloc, line)?;
    Ok(draft.add(alloc, form)?)
}

/// The fault with its line, which is 0 where memory ran out.
fn fault_at(kind: ReadKind, line: usize) -> ReadFault
    ensures kind { result.kind ≡ kind }
    ensures memory { kind ≡ ReadKind.OutOfMemory → result.line ≡ 0 }
    ensures line { kind ≢ ReadKind.OutOfMemory → result.line ≡ line }
{
    match kind {
        ReadKind::OutOfMemory => ReadFault { kind, line: 0 },
        _ => ReadFault { kind, line },
    }
}

/// The test, if a `check` line has ended it.
fn finished(draft: Draft) -> Option<Test>
    ensures whole { IfSome result (λ t. state_view draft ≡ Whole t) }
    ensures unfinished { IfNone result (IsUnfinished (state_view draft)) }
{
    match draft {
        Draft::Whole(test) => Some(test),
        _ => None,
    }
}

/// The test that a text spells, or the text's first fault. A text that is too long has this answer whatever memory there is.
pub fn read(alloc: Global, text: &[u8]) -> Result<Test, ReadFault>
    ensures spells { IfOk result (λ t. Spells text.now t) }
    ensures fault { IfErr result (λ e. IsReadFault text.now e.kind e.line) }
    ensures long { TEXT_LIMIT < length text.now → IsErrAnd result (λ e. (e.kind ≡ TooLong) × (e.line ≡ 1)) }
{
    // The length is checked first, since this answer must not depend on memory.
    if text.len() > TEXT_LIMIT {
        return Err(fault_at(ReadKind::TooLong, 1));
    }
    let mut draft = Draft::Empty;
    let mut number: usize = 0;
    let mut rest = Some(text);
    while let Some(left) = rest {
        let (line, after) = split_line(left);
        number += 1;
        draft = match add_line(alloc, draft, line) {
            Ok(next) => next,
            Err(kind) => return Err(fault_at(kind, number)),
        };
        rest = after;
    }
    match finished(draft) {
        Some(test) => Ok(test),
        None => Err(fault_at(ReadKind::MissingPart, number)),
    }
}
