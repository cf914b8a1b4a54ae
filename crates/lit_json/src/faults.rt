//! Why a text or its test is refused.

ghost use Rattle.std.specs.Prelude.{◌≡◌, ◌≢◌, ◌++◌, IfOk, IfSome, OnOk, codes};
ghost use Rattle.std.specs.Fmt.{decimal};
ghost use Rattle.serde_json.specs.Data.{null};
ghost use Rattle.serde_json.specs.View.{view};
ghost use Rattle.lit_paths.specs.FaultNames.{limit_text};
ghost use Rattle.lit_paths.specs.declared.fault.PlanFault.TheVariants as limits;
ghost use Rattle.lit_read.specs.FaultNames.{kind_text};
ghost use Rattle.lit_read.specs.declared.fault.ReadKind.TheVariants as kinds;
ghost use Rattle.lit_json.specs.StatementData.{count};
ghost use Rattle.lit_json.specs.Told.{IsFaultData};

use lit_paths::PlanFault;
use lit_read::{ReadFault, ReadKind};
use serde_json::{Value, json};
use std::alloc::{AllocError, Global};

/// The number and the word of what is wrong with a text; none where memory ran out.
fn read_parts(kind: ReadKind) -> Option<(u64, &'static str)>
    ensures named { IfSome result (λ parts. kind_text kind ≡ decimal parts.0 ++ codes " " ++ parts.1.now) }
    ensures of_text { IfSome result (λ _. kind ≢ kinds.OutOfMemory) }
{
    match kind {
        ReadKind::TooLong => Some((1, "too_long")),
        ReadKind::NotAscii => Some((2, "not_ascii")),
        ReadKind::Syntax => Some((3, "syntax")),
        ReadKind::Misplaced => Some((4, "misplaced")),
        ReadKind::BlockSize => Some((5, "block_size")),
        ReadKind::TooManyAgents => Some((6, "too_many_agents")),
        ReadKind::DuplicateAgent => Some((7, "duplicate_agent")),
        ReadKind::LiteralRange => Some((8, "literal_range")),
        ReadKind::OutOfBlock => Some((9, "out_of_block")),
        ReadKind::UnknownName => Some((10, "unknown_name")),
        ReadKind::TooDeep => Some((11, "too_deep")),
        ReadKind::MissingPart => Some((12, "missing_part")),
        ReadKind::OutOfMemory => None,
    }
}

/// The first fault of a text, with its line.
pub(crate) fn read_fault_value(alloc: Global, fault: ReadFault) -> Result<Value, AllocError>
    ensures told { IfOk result (λ v. IsFaultData (kind_text fault.kind) (count fault.line) (view v)) }
    ensures of_text { OnOk result (fault.kind ≢ kinds.OutOfMemory) }
{
    let Some((number, word)) = read_parts(fault.kind) else {
        return Err(AllocError);
    };
    json!(in alloc; {"number": number, "word": word, "line": fault.line})
}

/// The number and the word of the limit that a test exceeds; none where memory ran out.
fn plan_parts(fault: PlanFault) -> Option<(u64, &'static str)>
    ensures named { IfSome result (λ parts. limit_text fault ≡ decimal parts.0 ++ codes " " ++ parts.1.now) }
    ensures of_test { IfSome result (λ _. fault ≢ limits.OutOfMemory) }
{
    match fault {
        PlanFault::TooManyPaths => Some((13, "too_many_paths")),
        PlanFault::TooManyEvents => Some((14, "too_many_events")),
        PlanFault::TooManyChoices => Some((15, "too_many_choices")),
        PlanFault::OutOfMemory => None,
    }
}

/// Why a test is too large; no line of its text is at fault alone.
pub(crate) fn plan_fault_value(alloc: Global, fault: PlanFault) -> Result<Value, AllocError>
    ensures told { IfOk result (λ v. IsFaultData (limit_text fault) null (view v)) }
    ensures of_test { OnOk result (fault ≢ limits.OutOfMemory) }
{
    let Some((number, word)) = plan_parts(fault) else {
        return Err(AllocError);
    };
    json!(in alloc; {"number": number, "word": word, "line": null})
}
