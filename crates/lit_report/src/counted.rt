//! Readers and writers that count what fails.

use std::io;
use std::io::{Read, Write};

/// A reader or writer, with a count of its failed reads and writes. The count stays at `u64::MAX`.
///
/// A read or write that answers an error has failed, and so has a write that takes nothing of bytes that are not empty (decision 54).
#[derive(Drop)]
pub struct Counted<D> {
    device: D,
    failures: u64,
}

impl<D> Counted<D> {
    ghost use Rattle.std.specs.Prelude.{◌≡◌};
    ghost use Rattle.lit_report.specs.Counted.{device_of, failures_of};

    /// A device with no failure counted.
    pub fn new(device: D) -> Self
        ensures device { device_of result ≡ device }
        ensures none_failed { failures_of result ≡ 0 }
    {
        Counted {
            device,
            failures: 0,
        }
    }

    /// The device.
    pub fn into_inner(self) -> D
        ensures { result ≡ device_of self }
    {
        let Counted {
            device,
            failures: _,
        } = self;
        device
    }

    /// How many reads and writes have failed.
    pub fn failures(&self) -> u64
        ensures { result ≡ failures_of self.now }
    {
        let Counted {
            failures,
            device: _,
        } = self;
        *failures
    }
}

impl<R: Read> Read for Counted<R> {
    ghost use Rattle.std.specs.Prelude.{◌≡◌, is_ok, if◌then◌else◌};
    ghost use Rattle.std.specs.Io.{ReadsAtMost};
    ghost use Rattle.std.specs.Io.KnownBytes.{ReadConsumes};
    ghost use Rattle.lit_report.specs.Counted.{device_of, failures_of, one_more};

    ghost remaining = { λ c. R.remaining (device_of c) };

    fn read(&mut self, buf: &mut [u8]) -> io::Result<usize>
        ensures bound { ReadsAtMost result buf.new }
        ensures bytes { ReadConsumes (R.remaining (device_of self.old)) (R.remaining (device_of self.new)) result buf.new }
        ensures counted { failures_of self.new ≡ (if is_ok result then failures_of self.old else one_more (failures_of self.old)) }
    {
        let result = self.device.read(buf);
        if result.is_err() {
            self.failures = self.failures.saturating_add(1);
        }
        result
    }
}

impl<W: Write> Write for Counted<W> {
    ghost use Rattle.std.specs.Prelude.{◌≡◌, ◌==◌, ◌&&◌, not, is_ok, if◌then◌else◌};
    ghost use Rattle.std.specs.Io.{WritesAtMost};
    ghost use Rattle.std.specs.Io.KnownBytes.{WriteAppends, Keeps};
    ghost use Rattle.lit_report.specs.Counted.{device_of, failures_of, one_more, is_failed_write};

    ghost contents = { λ c. W.contents (device_of c) };

    fn write(&mut self, buf: &[u8]) -> io::Result<usize>
        ensures bound { WritesAtMost result buf.now }
        ensures bytes { WriteAppends (W.contents (device_of self.old)) (W.contents (device_of self.new)) result buf.now }
        ensures counted { failures_of self.new
            ≡ (if is_failed_write result buf.now then one_more (failures_of self.old) else failures_of self.old) }
    {
        let result = self.device.write(buf);
        let failed = match &result {
            Ok(taken) => *taken == 0 && !buf.is_empty(),
            Err(_) => true,
        };
        if failed {
            self.failures = self.failures.saturating_add(1);
        }
        result
    }

    fn flush(&mut self) -> io::Result<()>
        ensures bytes { Keeps (W.contents (device_of self.old)) (W.contents (device_of self.new)) }
        ensures counted { failures_of self.new ≡ failures_of self.old }
    {
        self.device.flush()
    }
}
