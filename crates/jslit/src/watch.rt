//! Watches: each follows a run while it goes on.

use lit_share::{Gate, OpenGate};

/// Follows a run: workers pass it on entering each piece, and the run tells it how many pieces there are and when the search is over. The
/// answer of a run does not depend on it.
pub trait Watch: Gate {
    /// A search begins, of so many pieces. A run calls this once at the most, before any piece is entered.
    fn begin(&self, pieces: u64);

    /// The search is over, and nothing is written yet. A run calls this once for each call of `begin`.
    fn end(&self);

    /// Whether it follows pieces. Where it does not, a run may find its report without a piece.
    fn follows_pieces(&self) -> bool {
        true
    }
}

/// Follows nothing.
impl Watch for OpenGate {
    fn begin(&self, _pieces: u64) {}

    fn end(&self) {}

    fn follows_pieces(&self) -> bool {
        false
    }
}
