//! Why a search by workers gave no answer.

use lit_desk::DeskFault;
use lit_search::SearchFault;
use std::alloc::{AllocError, AllocFailed};
use thiserror::Error;

/// Why a search by workers gave no answer.
#[derive(Clone, Copy, Debug, PartialEq, Eq, Error)]
pub enum ShareFault {
    /// A growth was refused.
    #[error("out_of_memory")]
    OutOfMemory,
}

impl From<AllocError> for ShareFault {
    fn from(_refused: AllocError) -> ShareFault {
        ShareFault::OutOfMemory
    }
}

impl<T: Drop> From<AllocFailed<T>> for ShareFault {
    fn from(_refused: AllocFailed<T>) -> ShareFault {
        ShareFault::OutOfMemory
    }
}

impl From<SearchFault> for ShareFault {
    fn from(_refused: SearchFault) -> ShareFault {
        ShareFault::OutOfMemory
    }
}

impl From<DeskFault> for ShareFault {
    fn from(_refused: DeskFault) -> ShareFault {
        ShareFault::OutOfMemory
    }
}
