//! The heartbeat of a search: a sign that it still runs, and a way to end it.

use std::alloc::AllocError;

/// What a search for outcomes calls at each step down, so that a caller can tell that it still runs, or end it. No other answer depends
/// on it.
pub trait Heartbeat {
    /// The search has descended one step, mostly with what that forces. An error ends it, as memory that is refused does.
    fn beat(&self) -> Result<(), AllocError> {
        Ok(())
    }

    /// This is `beat` at a step of a product of values. Such a step propagates nothing: that takes a hundredth of the time of another
    /// step, and a sixteenth where it records an outcome, as most do.
    fn product_beat(&self) -> Result<(), AllocError> {
        self.beat()
    }
}

/// A heartbeat that does nothing.
#[derive(Clone, Copy, Debug, PartialEq, Eq)]
pub struct NoHeartbeat;

impl Heartbeat for NoHeartbeat {}
