//! Why a test has no plan.

ghost use Rattle.std.specs.Prelude.{◌≡◌};
ghost use Rattle.lit_paths.specs.declared.fault.PlanFault.TheVariants.{OutOfMemory};

use std::alloc::{AllocError, AllocFailed};
use std::error::Error;
use std::fmt;

/// Why a test has no plan, in the order in which this is decided.
#[derive(Clone, Copy, Debug, PartialEq, Eq)]
pub enum PlanFault {
    /// Some combination of paths has more than `ACCESS_LIMIT` access events.
    TooManyEvents,
    /// There are more than `COMBINATION_LIMIT` combinations of paths: 4,096.
    TooManyPaths,
    /// There are more than `CHOICE_LIMIT` choices.
    TooManyChoices,
    /// A growth was refused.
    OutOfMemory,
}

impl PlanFault {
    ghost use Rattle.lit_paths.specs.FaultNames.{limit_text};

    /// Its number and its name, as they are shown.
    pub fn as_str(&self) -> &'static str
        ensures { result.now ≡ limit_text self.now }
    {
        match self {
            PlanFault::TooManyEvents => "14 too_many_events",
            PlanFault::TooManyPaths => "13 too_many_paths",
            PlanFault::TooManyChoices => "15 too_many_choices",
            PlanFault::OutOfMemory => "out_of_memory",
        }
    }
}

impl fmt::Display for PlanFault {
    ghost use Rattle.std.specs.Prelude.{Some};
    ghost use Rattle.lit_paths.specs.FaultNames.{limit_text};

    ghost output = { λ fault. Some (limit_text fault) };

    fn fmt<W: fmt::Write>(&self, f: &mut fmt::Formatter<W>) -> fmt::Result {
        f.write_str(self.as_str())
    }
}

impl Error for PlanFault {}

impl From<AllocError> for PlanFault {
    ghost from_gives = { λ _ e. e ≡ OutOfMemory };

    fn from(_e: AllocError) -> PlanFault {
        PlanFault::OutOfMemory
    }
}

impl<T: Drop> From<AllocFailed<T>> for PlanFault {
    ghost from_gives = { λ _ e. e ≡ OutOfMemory };

    fn from(_e: AllocFailed<T>) -> PlanFault {
        PlanFault::OutOfMemory
    }
}
