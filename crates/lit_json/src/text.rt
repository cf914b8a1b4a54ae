//! All that a text says.

ghost use Rattle.std.specs.Prelude.{◌≡◌, IfOk, true, false};
ghost use Rattle.serde_json.specs.View.{view};
ghost use Rattle.lit_read.specs.Spelling.{Spells};
ghost use Rattle.lit_json.specs.Told.{Describes, description};

use crate::counts::counts_value;
use crate::faults::{plan_fault_value, read_fault_value};
use crate::limits::limits_value;
use crate::test::test_value;
use lit_paths::plan;
use lit_read::{read, statement_lines};
use lit_syntax::Test;
use serde_json::{Value, json};
use std::alloc::{AllocError, Global};

/// The number of the form of the JSON. It grows where a reader of the form before may go wrong.
pub const FORM: u64 = 1;

/// What a text says.
#[derive(Debug, Drop)]
pub struct TextValue {
    pub value: Value,
    /// Whether the text spells a test that is not refused.
    pub is_test: bool,
}

/// The JSON with these members.
fn told(
    alloc: Global,
    version: &str,
    test: Value,
    counts: Value,
    fault: Value,
) -> Result<Value, AllocError>
    ensures { IfOk result (λ v. view v ≡ description version.now (view test) (view counts) (view fault)) }
{
    let limits = limits_value(alloc)?;
    json!(in alloc; {
        "form": FORM, "jslit": version, "limits": limits, "fault": fault, "test": test, "counts": counts
    })
}

/// What a text says that spells this test.
fn test_told(
    alloc: Global,
    version: &str,
    text: &[u8],
    test: &Test,
) -> Result<TextValue, AllocError>
    requires { Spells text.now test.now }
    ensures { IfOk result (λ told. Describes version.now text.now told.is_test (view told.value)) }
{
    let lines = statement_lines(alloc, text)?;
    let value = test_value(alloc, &lines, test)?;
    match plan(alloc, test) {
        Ok(plan) => {
            let counts = counts_value(alloc, &plan)?;
            let whole = told(alloc, version, value, counts, Value::Null)?;
            Ok(TextValue {
                value: whole,
                is_test: true,
            })
        }
        Err(fault) => {
            let fault = plan_fault_value(alloc, fault)?;
            let whole = told(alloc, version, value, Value::Null, fault)?;
            Ok(TextValue {
                value: whole,
                is_test: false,
            })
        }
    }
}

/// What a text says, with the version and the limits: the members `form`, `jslit`, `limits`, `fault`, `test` and `counts`. A text
/// that spells no test has a fault with its line and no test; a test that is too large has both, and no counts.
pub fn text_value(alloc: Global, version: &str, text: &[u8]) -> Result<TextValue, AllocError>
    ensures { IfOk result (λ told. Describes version.now text.now told.is_test (view told.value)) }
{
    match read(alloc, text) {
        Ok(test) => test_told(alloc, version, text, &test),
        Err(fault) => {
            let fault = read_fault_value(alloc, fault)?;
            let whole = told(alloc, version, Value::Null, Value::Null, fault)?;
            Ok(TextValue {
                value: whole,
                is_test: false,
            })
        }
    }
}
