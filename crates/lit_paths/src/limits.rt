//! What a test may have at the most, beside what stands in `lit_syntax`.

use lit_syntax::{AGENT_LIMIT, BLOCK_LIMIT, REGISTERS};

/// Access events in one combination of paths.
pub const ACCESS_LIMIT: usize = 24;

/// Bytes of one access.
pub const ACCESS_SIZE: usize = 4;

/// Events of a candidate execution: one for each byte of the block, and the accesses.
pub const EVENT_LIMIT: usize = BLOCK_LIMIT + ACCESS_LIMIT;

/// Bytes that the events of a candidate execution read.
pub const BYTE_READ_LIMIT: usize = ACCESS_LIMIT * ACCESS_SIZE;

/// Candidates of a byte that is read: the event that makes the byte, and accesses.
pub const CANDIDATE_LIMIT: usize = ACCESS_LIMIT + 1;

/// Registers of all agents.
pub const NAME_LIMIT: usize = AGENT_LIMIT * REGISTERS;

/// Combinations of paths of a test.
pub const COMBINATION_LIMIT: usize = 4_096;

/// Choices of a test.
pub const CHOICE_LIMIT: u64 = 1 << 48;
