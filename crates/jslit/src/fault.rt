//! Why there is no report.

ghost use Rattle.std.specs.Prelude.{◌≡◌};

use lit_paths::PlanFault;
use lit_read::{ReadFault, ReadKind};
use lit_report::OutputFailed;
use lit_search::SearchFault;
use lit_share::ShareFault;
use std::alloc::{AllocError, AllocFailed};
use thiserror::Error;

/// Why there is no report.
#[derive(Clone, Copy, Debug, PartialEq, Eq, Error)]
pub enum RunFault {
    /// The text spells no test: its first fault.
    #[error("refused {0}")]
    Read(ReadFault),
    /// The test has too many events, paths or choices.
    #[error("refused {0}")]
    Plan(PlanFault),
    /// A member of the schedule is the name of no agent of the test.
    #[error("refused 20 unknown_agent")]
    UnknownAgent,
    /// A growth was refused, in any layer.
    #[error("out_of_memory")]
    OutOfMemory,
    /// A read failed.
    #[error("input_failed")]
    InputFailed,
    /// A write failed. A beginning of the report may have been written.
    #[error("output_failed")]
    OutputFailed,
}

/// That memory ran out is a fault of the run (decision 55).
impl From<ReadFault> for RunFault {
    ghost use Rattle.jslit.specs.Internal.Faults.{IsOfReader};

    ghost from_gives = { IsOfReader };

    fn from(fault: ReadFault) -> RunFault {
        match fault.kind {
            ReadKind::OutOfMemory => RunFault::OutOfMemory,
            _ => RunFault::Read(fault),
        }
    }
}

/// That memory ran out is a fault of the run (decision 55).
impl From<PlanFault> for RunFault {
    ghost use Rattle.jslit.specs.Internal.Faults.{IsOfPlan};

    ghost from_gives = { IsOfPlan };

    fn from(fault: PlanFault) -> RunFault {
        match fault {
            PlanFault::OutOfMemory => RunFault::OutOfMemory,
            _ => RunFault::Plan(fault),
        }
    }
}

impl From<SearchFault> for RunFault {
    ghost use Rattle.std.specs.Prelude.{◌≡◌};
    ghost use Rattle.jslit.specs.declared.fault.RunFault.TheVariants.{OutOfMemory};

    ghost from_gives = { λ _ fault. fault ≡ OutOfMemory };

    fn from(_fault: SearchFault) -> RunFault {
        RunFault::OutOfMemory
    }
}

impl From<ShareFault> for RunFault {
    ghost use Rattle.std.specs.Prelude.{◌≡◌};
    ghost use Rattle.jslit.specs.declared.fault.RunFault.TheVariants.{OutOfMemory};

    ghost from_gives = { λ _ fault. fault ≡ OutOfMemory };

    fn from(_fault: ShareFault) -> RunFault {
        RunFault::OutOfMemory
    }
}

impl<T: Drop> From<AllocFailed<T>> for RunFault {
    ghost use Rattle.std.specs.Prelude.{◌≡◌};
    ghost use Rattle.jslit.specs.declared.fault.RunFault.TheVariants.{OutOfMemory};

    ghost from_gives = { λ _ fault. fault ≡ OutOfMemory };

    fn from(_refused: AllocFailed<T>) -> RunFault {
        RunFault::OutOfMemory
    }
}

impl From<AllocError> for RunFault {
    ghost use Rattle.std.specs.Prelude.{◌≡◌};
    ghost use Rattle.jslit.specs.declared.fault.RunFault.TheVariants.{OutOfMemory};

    ghost from_gives = { λ _ fault. fault ≡ OutOfMemory };

    fn from(_refused: AllocError) -> RunFault {
        RunFault::OutOfMemory
    }
}

impl From<OutputFailed> for RunFault {
    ghost use Rattle.std.specs.Prelude.{◌≡◌};
    ghost use Rattle.jslit.specs.declared.fault.RunFault.TheVariants as faults;

    ghost from_gives = { λ _ fault. fault ≡ faults.OutputFailed };

    fn from(_failed: OutputFailed) -> RunFault {
        RunFault::OutputFailed
    }
}
