//! The clauses of a valid execution, as they are printed.

ghost use Rattle.std.specs.Prelude.{◌≡◌, ◌<◌};
ghost use Rattle.lit_reason.specs.AnswerText.{clause_of, name_of, section_of};

use lit_why::Refusal;

/// A clause of a valid execution.
#[derive(Clone, Copy, Debug, PartialEq, Eq)]
pub(crate) enum Clause {
    Paths,
    HappensBefore,
    CoherentReads,
    TearFreeReads,
    MemoryOrder,
}

/// How many clauses there are.
pub(crate) const CLAUSE_COUNT: usize = 5;

/// The clauses, in the order in which they are checked.
pub(crate) const CLAUSES: [Clause; CLAUSE_COUNT] = [
    Clause::Paths,
    Clause::HappensBefore,
    Clause::CoherentReads,
    Clause::TearFreeReads,
    Clause::MemoryOrder,
];

impl Clause {
    /// The clause that refuses something.
    pub(crate) fn of(refusal: Refusal) -> Self
        ensures { result ≡ clause_of refusal }
    {
        match refusal {
            Refusal::FalseGuard { .. } => Clause::Paths,
            Refusal::BeforeItself { .. } => Clause::HappensBefore,
            Refusal::Incoherent { .. } => Clause::CoherentReads,
            Refusal::Torn { .. } => Clause::TearFreeReads,
            Refusal::NoOrder => Clause::MemoryOrder,
        }
    }

    /// Its place among the clauses.
    pub(crate) fn place(self) -> usize
        ensures { result < CLAUSE_COUNT }
    {
        match self {
            Clause::Paths => 0,
            Clause::HappensBefore => 1,
            Clause::CoherentReads => 2,
            Clause::TearFreeReads => 3,
            Clause::MemoryOrder => 4,
        }
    }

    /// Its name.
    pub(crate) fn name(self) -> &'static str
        ensures { result.now ≡ name_of self }
    {
        match self {
            Clause::Paths => "paths",
            Clause::HappensBefore => "happens-before",
            Clause::CoherentReads => "coherent-reads",
            Clause::TearFreeReads => "tear-free-reads",
            Clause::MemoryOrder => "memory-order",
        }
    }

    /// Where ECMA-262 (2024) has it.
    pub(crate) fn section(self) -> &'static str
        ensures { result.now ≡ section_of self }
    {
        match self {
            Clause::Paths => "the guards of the paths",
            Clause::HappensBefore => "29.7.5 valid executions",
            Clause::CoherentReads => "29.7.2 coherent reads",
            Clause::TearFreeReads => "29.7.3 tear free reads",
            Clause::MemoryOrder => "29.7.4 sequentially consistent atomics",
        }
    }
}
