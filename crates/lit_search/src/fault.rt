//! Why a search or an interleaving gave no result.

ghost use Rattle.std.specs.Prelude.{◌≡◌};
ghost use Rattle.lit_search.specs.declared.fault.SearchFault.TheVariants.{OutOfMemory};

use std::alloc::AllocError;
use thiserror::Error;

/// Why a search gave no report, or an interleaving no outcome.
#[derive(Clone, Copy, Debug, PartialEq, Eq, Error)]
pub enum SearchFault {
    /// A growth was refused.
    #[error("out_of_memory")]
    OutOfMemory,
}

impl From<AllocError> for SearchFault {
    ghost from_gives = { λ _ e. e ≡ OutOfMemory };

    fn from(_e: AllocError) -> SearchFault {
        SearchFault::OutOfMemory
    }
}
