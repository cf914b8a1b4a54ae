//! Why there is no answer.

use lit_paths::PlanFault;
use lit_read::{ReadFault, ReadKind};
use std::alloc::AllocError;
use thiserror::Error;

/// Why there is no answer.
#[derive(Clone, Copy, Debug, PartialEq, Eq, Error)]
pub enum ReasonFault {
    /// The text spells no test: its first fault.
    #[error("refused {0}")]
    Read(ReadFault),
    /// The test has too many events, paths or choices.
    #[error("refused {0}")]
    Plan(PlanFault),
    /// The condition that stands in place of the text's is none of the test.
    #[error("it is no condition for these agents")]
    Condition,
    /// A growth was refused.
    #[error("out_of_memory")]
    OutOfMemory,
}

/// That memory ran out is a fault of the answer, and none of the text.
impl From<ReadFault> for ReasonFault {
    ghost use Rattle.lit_reason.specs.Faults.{IsOfReader};

    ghost from_gives = { IsOfReader };

    fn from(fault: ReadFault) -> ReasonFault {
        match fault.kind {
            ReadKind::OutOfMemory => ReasonFault::OutOfMemory,
            _ => ReasonFault::Read(fault),
        }
    }
}

/// That memory ran out is a fault of the answer, and none of the test.
impl From<PlanFault> for ReasonFault {
    ghost use Rattle.lit_reason.specs.Faults.{IsOfPlan};

    ghost from_gives = { IsOfPlan };

    fn from(fault: PlanFault) -> ReasonFault {
        match fault {
            PlanFault::OutOfMemory => ReasonFault::OutOfMemory,
            _ => ReasonFault::Plan(fault),
        }
    }
}

impl From<AllocError> for ReasonFault {
    ghost use Rattle.std.specs.Prelude.{◌≡◌};
    ghost use Rattle.lit_reason.specs.declared.fault.ReasonFault.TheVariants.{OutOfMemory};

    ghost from_gives = { λ _ fault. fault ≡ OutOfMemory };

    fn from(_refused: AllocError) -> ReasonFault {
        ReasonFault::OutOfMemory
    }
}
