//! Gates: what each worker calls on entering a piece.

use lit_search::Heartbeat;
use std::alloc::AllocError;

/// What each worker calls on entering each of its pieces. Workers on threads of their own share a gate by reference. So it sees the
/// pieces as they are entered, and may delay a worker or report its progress. The answer of a search does not depend on it.
pub trait Gate: Sync {
    /// What one worker carries from piece to piece. It is dropped with the worker.
    type Pass: Send + Drop;

    /// The worker with this number, from 0, enters the piece with this number.
    fn at(&self, pass: &mut Self::Pass, worker: usize, piece: u64);

    /// A worker that searches for all outcomes calls this at each step down, mostly thousands of times a second, to show that it runs.
    fn alive(&self) {}
}

/// The heartbeat of a search behind a gate.
#[derive(Drop)]
pub(crate) struct GateBeat<'a, G> {
    pub gate: &'a G,
}

impl<G: Gate> Heartbeat for GateBeat<'_, G> {
    fn beat(&self) -> Result<(), AllocError> {
        self.gate.alive();
        Ok(())
    }
}

/// A gate that does nothing.
#[derive(Clone, Copy, Debug, PartialEq, Eq)]
pub struct OpenGate;

impl Gate for OpenGate {
    type Pass = ();

    fn at(&self, _pass: &mut (), _worker: usize, _piece: u64) {}
}
