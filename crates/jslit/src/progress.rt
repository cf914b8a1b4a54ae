//! A line of progress on a terminal (decision 61).

use crate::watch::Watch;
use lit_share::Gate;
use std::io::Write;
use std::rt::Clock;
use std::sync::Mutex;
use std::sync::atomic::{AtomicU64, Ordering};
use std::time::Instant;

/// How long a run goes on before a line is shown, in seconds.
const QUIET: u64 = 2;

/// The clock is read at one of so many heartbeats, since reading it takes as long as some frames of the search.
const BEATS: u64 = 4_096;

/// Shows one line that renews itself, once a second at the most, on entering a piece and while outcomes are searched: how many
/// pieces have begun, of how many, and the seconds gone. Nothing is shown in the first two seconds, and at the end the line
/// is taken away. It is meant for a terminal: a line is renewed by a carriage return. What can't be written is not shown.
#[derive(Drop)]
pub struct Progress<'a, C, E> {
    clock: &'a C,
    began: Option<Instant>,
    pieces: AtomicU64,
    begun: AtomicU64,
    beats: AtomicU64,
    /// The second that is shown, or 0 where nothing is.
    shown: AtomicU64,
    terminal: Mutex<E>,
}

impl<'a, C: Clock, E> Progress<'a, C, E> {
    /// Of a run that begins now, on this terminal. Where the clock can't be read, nothing is shown.
    pub fn new(clock: &'a C, terminal: E) -> Self {
        Progress {
            clock,
            began: Instant::now(clock).ok(),
            pieces: AtomicU64::new(0),
            begun: AtomicU64::new(0),
            beats: AtomicU64::new(0),
            shown: AtomicU64::new(0),
            terminal: Mutex::new(terminal),
        }
    }

    /// The seconds gone, or 0 where the clock can't be read.
    fn seconds(&self) -> u64 {
        match &self.began {
            Some(began) => began.elapsed(self.clock).map_or(0, |gone| gone.as_secs()),
            None => 0,
        }
    }
}

impl<C: Clock, E: Write> Progress<'_, C, E> {
    /// Shows the line as it is now, if it is time to.
    fn show(&self) {
        let seconds = self.seconds();
        if seconds < QUIET || self.shown.swap(seconds, Ordering::SeqCst) == seconds {
            return;
        }
        let begun = self.begun.load(Ordering::SeqCst);
        let pieces = self.pieces.load(Ordering::SeqCst);
        // No worker waits for the terminal: where another one writes to it, this one shows nothing.
        if let Some(mut terminal) = self.terminal.try_lock() {
            let _ = write!(*terminal, "\r{begun} of {pieces} pieces begun, {seconds} s");
            let _ = terminal.flush();
        }
    }
}

impl<C: Clock + Sync, E: Write + Send + Drop> Gate for Progress<'_, C, E> {
    type Pass = ();

    fn at(&self, _pass: &mut (), _worker: usize, _piece: u64) {
        self.begun.fetch_add(1, Ordering::SeqCst);
        self.show();
    }

    fn alive(&self) {
        if self.beats.fetch_add(1, Ordering::SeqCst) % BEATS == 0 {
            self.show();
        }
    }
}

impl<C: Clock + Sync, E: Write + Send + Drop> Watch for Progress<'_, C, E> {
    fn begin(&self, pieces: u64) {
        self.pieces.store(pieces, Ordering::SeqCst);
    }

    fn end(&self) {
        if self.shown.swap(0, Ordering::SeqCst) == 0 {
            return;
        }
        if let Some(mut terminal) = self.terminal.try_lock() {
            let _ = write!(*terminal, "\r\x1b[K");
            let _ = terminal.flush();
        }
    }

    /// Not before a line is due.
    fn follows_pieces(&self) -> bool {
        self.seconds() >= QUIET
    }
}
