//! Why a desk was not opened.

use std::alloc::AllocError;
use std::error::Error;
use std::fmt;

/// Why a desk was not opened.
#[derive(Clone, Copy, Debug, PartialEq, Eq)]
pub enum DeskFault {
    /// A request for memory was refused.
    OutOfMemory,
}

impl fmt::Display for DeskFault {
    ghost use Rattle.std.specs.Prelude.{Some, codes};

    ghost output = { λ _. Some (codes "out_of_memory") };

    fn fmt<W: fmt::Write>(&self, f: &mut fmt::Formatter<W>) -> fmt::Result {
        f.write_str("out_of_memory")
    }
}

impl Error for DeskFault {}

impl From<AllocError> for DeskFault {
    fn from(_refused: AllocError) -> DeskFault {
        DeskFault::OutOfMemory
    }
}
