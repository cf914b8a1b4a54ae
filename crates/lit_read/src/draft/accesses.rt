//! Checks accesses and makes statements of them: literals that fit, and indices in the block.

ghost use Rattle.std.specs.Prelude.{◌≡◌, Ok, Err, if◌then◌else◌};
ghost use Rattle.lit_syntax.specs.Syntax.{fits_window, is_in_block};
ghost use Rattle.lit_syntax.specs.Litmus.{window_of};
ghost use Rattle.lit_read.specs.Internal.State.{checked_statement};
ghost use Rattle.lit_read.specs.Internal.Views.{access_view, result_statement};

use crate::fault::ReadKind;
use crate::forms::Access;
use lit_syntax::{Stmt, View};

/// Whether the number is one that the view can write.
fn fits(view: View, value: u64) -> bool
    ensures { result ≡ fits_window (window_of view) value }
{
    match view {
        View::U8 | View::D8 => value < 256,
        View::U16 | View::D16 => value < 65_536,
        View::U32 | View::D32 => value < 4_294_967_296,
    }
}

/// The number, if it is one that the view can write.
#[tactic(auto, using(crate::proofs::DraftLemmas::fitting_small))]
fn literal_of(view: View, value: u64) -> Result<u32, ReadKind>
    ensures { result ≡ (if fits_window (window_of view) value then Ok value else Err ReadKind.LiteralRange) }
{
    if fits(view, value) {
        Ok(value as u32)
    } else {
        Err(ReadKind::LiteralRange)
    }
}

/// Whether the whole access lies in the block.
fn is_in_block(bytes: u8, view: View, index: u64) -> bool
    ensures { result ≡ is_in_block bytes (window_of view) index }
{
    let bytes = bytes as u64;
    match view {
        View::U8 => index < bytes,
        View::U16 => index < bytes / 2,
        View::U32 => index < bytes / 4,
        View::D8 => index < bytes,
        View::D16 => bytes >= 2 && index <= bytes - 2,
        View::D32 => bytes >= 4 && index <= bytes - 4,
    }
}

/// The index, if the whole access lies in the block.
#[tactic(auto, using(crate::proofs::DraftLemmas::in_block_small))]
fn index_in(bytes: u8, view: View, index: u64) -> Result<u8, ReadKind>
    ensures { result ≡ (if is_in_block bytes (window_of view) index then Ok index else Err ReadKind.OutOfBlock) }
{
    if is_in_block(bytes, view, index) {
        Ok(index as u8)
    } else {
        Err(ReadKind::OutOfBlock)
    }
}

/// The access as a statement, if its literals fit and it lies in the block.
pub fn checked_access(bytes: u8, access: Access) -> Result<Stmt, ReadKind>
    ensures { result_statement result ≡ checked_statement bytes (access_view access) }
{
    match access {
        Access::Load {
            reg,
            view,
            index,
            atomic,
        } => Ok(Stmt::Load {
            reg,
            view,
            index: index_in(bytes, view, index)?,
            atomic,
        }),
        Access::Store {
            view,
            index,
            value,
            atomic,
        } => Ok(Stmt::Store {
            view,
            value: literal_of(view, value)?,
            index: index_in(bytes, view, index)?,
            atomic,
        }),
        Access::Exchange {
            reg,
            view,
            index,
            value,
        } => Ok(Stmt::Exchange {
            reg,
            view,
            value: literal_of(view, value)?,
            index: index_in(bytes, view, index)?,
        }),
        Access::CompareExchange {
            reg,
            view,
            index,
            expected,
            value,
        } => Ok(Stmt::CompareExchange {
            reg,
            view,
            expected: literal_of(view, expected)?,
            value: literal_of(view, value)?,
            index: index_in(bytes, view, index)?,
        }),
    }
}
