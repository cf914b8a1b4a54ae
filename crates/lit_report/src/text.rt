//! Texts of bounded length in an array, to which bytes are appended.

ghost use Rattle.std.specs.Prelude.{◌≡◌, ◌++◌, [], true, false};

use std::marker::Model;

/// A text of at most `ROOM` bytes.
#[derive(Drop)]
pub(crate) struct Text<const ROOM: usize> {
    bytes: [u8; ROOM],
    length: usize,
}

impl<const ROOM: usize> Model for Text<ROOM> {
    ghost use Rattle.std.specs.Prelude.{ℕ, ◌≤◌, List, take};

    ghost Value = { List ℕ };

    ghost view = { λ t. take t.length t.bytes };

    ghost invariant = { λ t. t.length ≤ ROOM };
}

impl<const ROOM: usize> Text<ROOM> {
    /// The empty text.
    pub(crate) fn new() -> Self
        ensures { result ≡ [] }
    {
        Text {
            bytes: [0; ROOM],
            length: 0,
        }
    }

    /// Makes it the empty text.
    pub(crate) fn clear(&mut self)
        ensures { self.new ≡ [] }
    {
        self.length = 0;
    }

    /// Its bytes.
    pub(crate) fn as_slice(&self) -> &[u8]
        ensures { result.now ≡ self.now }
    {
        &self.bytes[..self.length]
    }

    /// Puts bytes behind it, unless there is no room for them. Gives whether there was.
    #[inline]
    pub(crate) fn try_put(&mut self, bytes: &[u8]) -> bool
        ensures put { result ≡ true → self.new ≡ self.old ++ bytes.now }
        ensures unchanged { result ≡ false → self.new ≡ self.old }
    {
        if ROOM - self.length < bytes.len() {
            return false;
        }
        let end = self.length + bytes.len();
        let all = &mut self.bytes[..];
        all[self.length..end].copy_from_slice(bytes);
        self.length = end;
        true
    }
}
