//! Standard error where it is a terminal.

use std::io;
use std::io::Write;
use std::rt::Files;

/// Writes to standard error where that is a terminal, and else nowhere. It asks the system at the first write, so that a short run asks
/// nothing (decision 62).
#[derive(Drop)]
pub(crate) struct Terminal<'a, R, E> {
    rt: &'a R,
    errors: E,
    is_terminal: Option<bool>,
}

impl<'a, R: Files + Alloc, E> Terminal<'a, R, E> {
    /// Not asked yet. `errors` is standard error.
    pub(crate) fn new(rt: &'a R, errors: E) -> Self {
        Terminal {
            rt,
            errors,
            is_terminal: None,
        }
    }

    /// Whether standard error is a terminal, by the name that the system gives to what it is.
    fn is_there(&mut self) -> bool {
        if let Some(known) = self.is_terminal {
            return known;
        }
        let found = match self.rt.read_link(self.rt.alloc(), "/proc/self/fd/2") {
            Ok(name) => {
                let name = name.as_str();
                name.starts_with("/dev/pts/")
                    || name.starts_with("/dev/tty")
                    || name == "/dev/console"
            }
            Err(_) => false,
        };
        self.is_terminal = Some(found);
        found
    }
}

impl<R: Files + Alloc, E: Write> Write for Terminal<'_, R, E> {
    fn write(&mut self, buf: &[u8]) -> io::Result<usize> {
        if self.is_there() {
            return self.errors.write(buf);
        }
        Ok(buf.len())
    }

    fn flush(&mut self) -> io::Result<()> {
        if self.is_there() {
            return self.errors.flush();
        }
        Ok(())
    }
}
