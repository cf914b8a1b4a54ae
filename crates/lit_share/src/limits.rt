//! Limits of a search by workers.

use lit_desk::MOST_SEATS;
use lit_paths::CHOICE_LIMIT;

/// Choices of one piece: as many as a test may have.
pub const CUT_LIMIT: u64 = CHOICE_LIMIT;

/// Workers of a search: as many as a desk has places.
pub const WORKER_LIMIT: usize = MOST_SEATS;
