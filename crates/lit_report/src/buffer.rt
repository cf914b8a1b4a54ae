//! The output buffer of a report: text on its way to a writer.

ghost use Rattle.std.specs.Prelude.{◌≡◌, [], ◌∷◌, false, OnOk, OnErr};
ghost use Rattle.std.specs.Fmt.{decimal};
ghost use Rattle.std.specs.Io.KnownBytes.{Appends};
ghost use Rattle.lit_report.specs.Counted.{device_of, failures_of, one_more};
ghost use Rattle.lit_report.specs.Writing.{AppendsBeginning, HasPut, HasPutOn, IsFinished, IsStopped, has_failed, waiting_of, writing_of};

use crate::counted::Counted;
use crate::digits::{DIGIT_LIMIT, write_digits};
use crate::fault::OutputFailed;
use crate::text::Text;
use std::io::Write;

/// How many bytes wait at the most before they are written.
const ROOM: usize = 8_192;

/// An output buffer: the bytes that wait to be written, and whether a write has failed. After a failed write the buffer writes nothing
/// more (decision 57). Its room is fixed, so putting bytes takes no memory.
#[derive(Drop)]
pub struct Buffer {
    pub(crate) waiting: Text<ROOM>,
    pub(crate) failed: bool,
}

impl Buffer {
    /// An empty buffer.
    pub fn new() -> Self
        ensures empty { waiting_of result ≡ [] }
        ensures going { has_failed result ≡ false }
    {
        Buffer {
            waiting: Text::new(),
            failed: false,
        }
    }

    /// Puts bytes behind those that wait. Where there is no room for them, it writes the waiting bytes first.
    #[inline]
    pub fn put<W: Write>(&mut self, output: &mut Counted<W>, bytes: &[u8])
        ensures { HasPutOn W.contents output.old output.new self.old self.new bytes.now }
    {
        if self.waiting.try_put(bytes) {
            return;
        }
        self.put_after_flush(output, bytes);
    }

    /// Puts one byte behind those that wait.
    #[inline]
    pub fn put_byte<W: Write>(&mut self, output: &mut Counted<W>, byte: u8)
        ensures { HasPutOn W.contents output.old output.new self.old self.new (byte ∷ []) }
    {
        self.put(output, &[byte]);
    }

    /// Puts four bytes. They are joined to one number, since a processor is slow to read at once what it has stored byte by byte.
    #[inline]
    pub(crate) fn put_four<W: Write>(&mut self, output: &mut Counted<W>, bytes: [u8; 4])
        ensures { HasPutOn W.contents output.old output.new self.old self.new bytes }
    {
        self.put(output, &u32::from_le_bytes(bytes).to_le_bytes());
    }

    /// Writes the waiting bytes, and then puts these. Bytes that the empty buffer has no room for go straight to the writer.
    /// It is not inlined, so that `put` stays small.
    #[inline(never)]
    fn put_after_flush<W: Write>(&mut self, output: &mut Counted<W>, bytes: &[u8])
        ensures { HasPutOn W.contents output.old output.new self.old self.new bytes.now }
    {
        self.flush(output);
        if self.waiting.try_put(bytes) {
            return;
        }
        self.failed = write_on(self.failed, output, bytes);
    }

    /// Puts a number, in decimal digits (decision 56).
    pub fn put_number<W: Write>(&mut self, output: &mut Counted<W>, number: u64)
        ensures { HasPutOn W.contents output.old output.new self.old self.new (decimal number) }
    {
        if number < 10 {
            self.put_byte(output, b'0' + number as u8);
            return;
        }
        let mut digits = [0; DIGIT_LIMIT];
        let start = write_digits(&mut digits, number);
        self.put(output, &digits[start..]);
    }

    /// Writes the waiting bytes.
    fn flush<W: Write>(&mut self, output: &mut Counted<W>)
        ensures put { HasPutOn W.contents output.old output.new self.old self.new [] }
        ensures empty { self.new.waiting ≡ [] }
    {
        self.failed = write_on(self.failed, output, self.waiting.as_slice());
        self.waiting.clear();
    }

    /// Writes the waiting bytes, and answers whether all bytes that were put have been written.
    pub fn finish<W: Write>(mut self, output: &mut Counted<W>) -> Result<(), OutputFailed>
        ensures written { OnOk result
            (IsFinished (writing_of W.contents output.old self) (W.contents (device_of output.new)) (failures_of output.new)) }
        ensures failed { OnErr result
            (IsStopped (writing_of W.contents output.old self) (W.contents (device_of output.new)) (failures_of output.new)) }
    {
        self.flush(output);
        if self.failed {
            return Err(OutputFailed);
        }
        Ok(())
    }
}

/// Writes all the bytes, unless a write has failed. Gives whether one has failed now.
fn write_on<W: Write>(failed: bool, output: &mut Counted<W>, bytes: &[u8]) -> bool
    ensures { HasPut
        (record { known = W.contents (device_of output.old); failures = failures_of output.old; waiting = bytes.now; failed = failed })
        (record { known = W.contents (device_of output.new); failures = failures_of output.new; waiting = []; failed = result }) [] }
{
    failed || write_bytes(output, bytes).is_err()
}

/// Writes all the bytes, or as many as are taken before a write fails. Takes no memory.
pub fn write_bytes<W: Write>(output: &mut Counted<W>, bytes: &[u8]) -> Result<(), OutputFailed>
    ensures written { OnOk result (Appends (W.contents (device_of output.old)) (W.contents (device_of output.new)) bytes.now) }
    ensures not_failed { OnOk result (failures_of output.new ≡ failures_of output.old) }
    ensures begun { OnErr result (AppendsBeginning (W.contents (device_of output.old)) (W.contents (device_of output.new)) bytes.now) }
    ensures failed { OnErr result (failures_of output.new ≡ one_more (failures_of output.old)) }
{
    let mut rest = bytes;
    while !rest.is_empty() {
        match output.write(rest) {
            Ok(taken) if taken > 0 => rest = rest.split_at(taken).1,
            _ => return Err(OutputFailed),
        }
    }
    Ok(())
}
