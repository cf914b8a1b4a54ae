//! The limits of a text and of a test.

ghost use Rattle.std.specs.Prelude.{◌≡◌, IfOk};
ghost use Rattle.serde_json.specs.View.{view};
ghost use Rattle.lit_json.specs.Told.{limits_data};

use lit_paths::{ACCESS_LIMIT, CHOICE_LIMIT, COMBINATION_LIMIT};
use lit_syntax::{
    AGENT_LIMIT, BLOCK_LIMIT, COMPARED_LIMIT, DEPTH_LIMIT, DIGIT_LIMIT, IF_LIMIT, REGISTERS,
    TEXT_LIMIT, WORD_LIMIT,
};
use serde_json::{Value, json};
use std::alloc::{AllocError, Global};

/// The limits, each by what it bounds: bytes of a text, of a word and of the block, digits, agents, registers of an agent, the
/// greatest number compared with, open `if`s, `!` and `(` around a comparison, accesses on a combination of paths, combinations
/// and choices.
pub fn limits_value(alloc: Global) -> Result<Value, AllocError>
    ensures { IfOk result (λ v. view v ≡ limits_data) }
{
    json!(in alloc; {
        "text": TEXT_LIMIT as u64,
        "word": WORD_LIMIT as u64,
        "digits": DIGIT_LIMIT as u64,
        "block": BLOCK_LIMIT as u64,
        "agents": AGENT_LIMIT as u64,
        "registers": REGISTERS as u64,
        "compared": COMPARED_LIMIT,
        "ifs": IF_LIMIT as u64,
        "depth": DEPTH_LIMIT as u64,
        "accesses": ACCESS_LIMIT as u64,
        "combinations": COMBINATION_LIMIT as u64,
        "choices": CHOICE_LIMIT
    })
}
