//! Accesses to the bytes of a block, each at once.

ghost use Rattle.std.specs.Prelude.{◌≡◌, IsTrue, length};
ghost use Rattle.lit_syntax.specs.Syntax.{is_in_block, window_size};
ghost use Rattle.lit_syntax.specs.Litmus.{window_of};
ghost use Rattle.lit_paths.specs.Path.{first_byte};
ghost use Rattle.lit_interleave.specs.Interleaving.{number_in, with_number};

use lit_syntax::View;

/// The first byte of an access, from the block's start, and how many bytes the access has.
fn range_of(view: View, index: u8) -> (usize, usize)
    ensures first { result.0 ≡ first_byte (window_of view) index }
    ensures size { result.1 ≡ window_size (window_of view) }
{
    let index = usize::from(index);
    match view {
        View::U8 | View::D8 => (index, 1),
        View::U16 => (2 * index, 2),
        View::U32 => (4 * index, 4),
        View::D16 => (index, 2),
        View::D32 => (index, 4),
    }
}

/// The number that an access finds in the block.
pub(crate) fn number_at(block: &[u8], view: View, index: u8) -> u32
    requires { IsTrue (is_in_block (length block.now) (window_of view) index) }
    ensures { result ≡ number_in block.now (window_of view) index }
{
    let (first, size) = range_of(view, index);
    let mut bytes = [0; 4];
    bytes[..size].copy_from_slice(&block[first..first + size]);
    u32::from_le_bytes(bytes)
}

/// Puts a number into the bytes of an access.
pub(crate) fn put_number(block: &mut [u8], view: View, index: u8, value: u32)
    requires { IsTrue (is_in_block (length block.old) (window_of view) index) }
    ensures { block.new ≡ with_number block.old (window_of view) index value }
{
    let (first, size) = range_of(view, index);
    let bytes = value.to_le_bytes();
    block[first..first + size].copy_from_slice(&bytes[..size]);
}
