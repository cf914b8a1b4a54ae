//! A cache of one text: printed once, and copied as long as it does not change (decision 59).

use crate::buffer::Buffer;
use crate::counted::Counted;
use crate::text::Text;
use std::io;
use std::io::Write;

/// A writer that takes nothing: the bytes put into a buffer before it wait there, or a write has failed.
#[derive(Drop)]
pub(crate) struct Nowhere {}

impl Write for Nowhere {
    ghost use Rattle.std.specs.Prelude.{[], Some};

    ghost contents = { λ _. Some [] };

    fn write(&mut self, _buf: &[u8]) -> io::Result<usize> {
        Ok(0)
    }

    fn flush(&mut self) -> io::Result<()> {
        Ok(())
    }
}

/// A text of no more bytes than a buffer has room for, or no text: then the buffer has failed.
#[derive(Drop)]
pub(crate) struct CachedText {
    pub buffer: Buffer,
    pub nowhere: Counted<Nowhere>,
}

impl CachedText {
    ghost use Rattle.std.specs.Prelude.{◌≡◌, true, false, not, []};

    /// No text.
    pub(crate) fn new() -> Self
        ensures { result.buffer.failed ≡ true }
    {
        CachedText {
            buffer: Buffer {
                waiting: Text::new(),
                failed: true,
            },
            nowhere: Counted::new(Nowhere {}),
        }
    }

    /// Drops the text.
    pub(crate) fn forget(&mut self)
        ensures { self.new.buffer.failed ≡ true }
    {
        self.buffer.failed = true;
    }

    /// Makes it the empty text. The caller adds to it by putting bytes into the buffer.
    pub(crate) fn begin(&mut self)
        ensures empty { self.new.buffer.waiting ≡ [] }
        ensures going { self.new.buffer.failed ≡ false }
    {
        self.buffer.waiting.clear();
        self.buffer.failed = false;
    }

    /// Whether a text is cached.
    pub(crate) fn is_cached(&self) -> bool
        ensures { result ≡ not self.now.buffer.failed }
    {
        !self.buffer.failed
    }

    /// The cached text.
    pub(crate) fn text(&self) -> &[u8]
        ensures { result.now ≡ self.now.buffer.waiting }
    {
        self.buffer.waiting.as_slice()
    }
}
