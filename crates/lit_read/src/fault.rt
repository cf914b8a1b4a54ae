//! Why a text is no test.

ghost use Rattle.std.specs.Prelude.{◌≡◌};
ghost use Rattle.lit_read.specs.declared.fault.ReadKind.TheVariants.{OutOfMemory};

use std::alloc::{AllocError, AllocFailed};
use std::fmt;
use thiserror::Error;

/// What is wrong, in the order of the numbers that are shown. Among several faults of one line the first decides.
#[derive(Clone, Copy, Debug, PartialEq, Eq)]
pub enum ReadKind {
    /// The text has more than 65,536 bytes.
    TooLong,
    /// The line has a byte that is neither a blank nor printable ASCII.
    NotAscii,
    /// The line has none of the forms.
    Syntax,
    /// The form cannot stand here.
    Misplaced,
    /// The block has no byte, or more than `BLOCK_LIMIT`.
    BlockSize,
    /// There are `AGENT_LIMIT` agents before this one.
    TooManyAgents,
    /// An earlier agent has this name.
    DuplicateAgent,
    /// A number does not fit the element that it is written to, or is above 4,294,967,295 in a comparison.
    LiteralRange,
    /// The access is not wholly in the block.
    OutOfBlock,
    /// A comparison names no agent, or a register that this agent writes nowhere.
    UnknownName,
    /// An `if` line opens a ninth level, or a comparison stands inside more than eight `!` and parentheses.
    TooDeep,
    /// The text ends before its `check` line.
    MissingPart,
    /// A growth was refused.
    OutOfMemory,
}

impl ReadKind {
    ghost use Rattle.lit_read.specs.FaultNames.{kind_text};

    /// Its number and its name, as they are shown.
    pub fn as_str(&self) -> &'static str
        ensures { result.now ≡ kind_text self.now }
    {
        match self {
            ReadKind::TooLong => "1 too_long",
            ReadKind::NotAscii => "2 not_ascii",
            ReadKind::Syntax => "3 syntax",
            ReadKind::Misplaced => "4 misplaced",
            ReadKind::BlockSize => "5 block_size",
            ReadKind::TooManyAgents => "6 too_many_agents",
            ReadKind::DuplicateAgent => "7 duplicate_agent",
            ReadKind::LiteralRange => "8 literal_range",
            ReadKind::OutOfBlock => "9 out_of_block",
            ReadKind::UnknownName => "10 unknown_name",
            ReadKind::TooDeep => "11 too_deep",
            ReadKind::MissingPart => "12 missing_part",
            ReadKind::OutOfMemory => "out_of_memory",
        }
    }
}

impl fmt::Display for ReadKind {
    ghost use Rattle.std.specs.Prelude.{Some};
    ghost use Rattle.lit_read.specs.FaultNames.{kind_text};

    ghost output = { λ kind. Some (kind_text kind) };

    fn fmt<W: fmt::Write>(&self, f: &mut fmt::Formatter<W>) -> fmt::Result {
        f.write_str(self.as_str())
    }
}

impl std::error::Error for ReadKind {}

impl From<AllocError> for ReadKind {
    ghost from_gives = { λ _ e. e ≡ OutOfMemory };

    fn from(_e: AllocError) -> ReadKind {
        ReadKind::OutOfMemory
    }
}

impl<T: Drop> From<AllocFailed<T>> for ReadKind {
    ghost from_gives = { λ _ e. e ≡ OutOfMemory };

    fn from(_e: AllocFailed<T>) -> ReadKind {
        ReadKind::OutOfMemory
    }
}

/// The first fault of a text.
#[derive(Clone, Copy, Debug, PartialEq, Eq, Error)]
#[error("{kind} line {line}")]
pub struct ReadFault {
    /// What is wrong.
    pub kind: ReadKind,
    /// The line, from 1; 0 where a growth was refused.
    pub line: usize,
}

impl From<AllocError> for ReadFault {
    ghost from_gives = { λ _ e. e ≡ record { kind = OutOfMemory; line = 0 } };

    fn from(_e: AllocError) -> ReadFault {
        ReadFault {
            kind: ReadKind::OutOfMemory,
            line: 0,
        }
    }
}

impl<T: Drop> From<AllocFailed<T>> for ReadFault {
    ghost from_gives = { λ _ e. e ≡ record { kind = OutOfMemory; line = 0 } };

    fn from(_e: AllocFailed<T>) -> ReadFault {
        ReadFault {
            kind: ReadKind::OutOfMemory,
            line: 0,
        }
    }
}
