//! Memory as a writer.

use std::io;
use std::io::Write;

/// Bytes in memory. A write fails where there is no memory for more.
#[derive(Drop)]
pub(crate) struct Memory {
    pub(crate) bytes: Vec<u8>,
}

impl Write for Memory {
    ghost use Rattle.std.specs.Prelude.{Some};

    ghost contents = { λ m. Some m.bytes.items };

    fn write(&mut self, buf: &[u8]) -> io::Result<usize> {
        self.bytes.extend_from_slice(buf)?;
        Ok(buf.len())
    }

    fn flush(&mut self) -> io::Result<()> {
        Ok(())
    }
}
