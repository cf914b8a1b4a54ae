//! What a text says, as a line of JSON.

ghost use Rattle.std.specs.Prelude.{IfOk};
ghost use Rattle.lit_json.specs.Line.{IsLineOn};

use crate::text::text_value;
use std::alloc::{AllocError, Global};

/// A line of JSON on a text.
#[derive(Debug, Drop)]
pub struct TextLine {
    pub line: Vec<u8>,
    /// Whether the text spells a test that is not refused.
    pub is_test: bool,
}

/// The first line of what a program prints as its version: the number alone, without the toolchain's line.
fn number_of(version: &str) -> &str {
    match version.split_once("\n") {
        Some((number, _)) => number,
        None => version,
    }
}

/// What a text says, as `text_value` has it, on one line. Of the version its first line is told.
pub fn text_line(alloc: Global, version: &str, text: &[u8]) -> Result<TextLine, AllocError>
    ensures { IfOk result (λ told. IsLineOn text.now told.is_test told.line.items) }
{
    let told = text_value(alloc, number_of(version), text)?;
    let mut line = told.value.to_vec(alloc)?;
    line.push(b'\n')?;
    Ok(TextLine {
        line,
        is_test: told.is_test,
    })
}
