//! The canonical text of a test.

pub(crate) mod conditions;
pub(crate) mod statements;

ghost use Rattle.std.specs.Prelude.{◌≡◌, ◌++◌, ◌∷◌, [], IfOk, IfErr, OnOk, string_bytes};
ghost use Rattle.lit_read.specs.declared.fault.ReadKind.TheVariants.{OutOfMemory};
ghost use Rattle.lit_syntax.specs.Forms.{TestLine, BytesLine, AgentLine, CheckLine};
ghost use Rattle.lit_read.specs.Canonical.{agents_forms};
ghost use Rattle.lit_syntax.specs.Parentheses.{written_of};
ghost use Rattle.lit_read.specs.CanonicalText.{forms_text, canonical};

use crate::fault::ReadFault;
use crate::showing::conditions::put_condition;
use crate::showing::statements::put_statements;
use lit_syntax::Test;
use std::alloc::{AllocError, Global};

/// Writes the first two lines.
fn put_head(out: &mut String, test: &Test) -> Result<(), AllocError>
    ensures { OnOk result
        (string_bytes out.new ≡ string_bytes out.old ++ forms_text (TestLine test.now.name ∷ BytesLine test.now.bytes ∷ [])) }
{
    write!(out, "test {}\nbytes {}\n", test.name(), test.bytes())
}

/// Writes an agent's line.
fn put_name(out: &mut String, name: &str) -> Result<(), AllocError>
    ensures { OnOk result (string_bytes out.new ≡ string_bytes out.old ++ forms_text (AgentLine name.now ∷ [])) }
{
    write!(out, "agent {name}\n")
}

/// Writes each agent's line and the lines of its statements.
fn put_agents(out: &mut String, test: &Test) -> Result<(), AllocError>
    ensures { OnOk result (string_bytes out.new ≡ string_bytes out.old ++ forms_text (agents_forms test.now.agents)) }
{
    for agent in 0..test.agents() {
        put_name(out, test.agent_name(agent))?;
        put_statements(out, test.body(agent))?;
    }
    Ok(())
}

/// Writes the last line.
fn put_check(out: &mut String, test: &Test) -> Result<(), AllocError>
    ensures { OnOk result
        (string_bytes out.new ≡ string_bytes out.old ++ forms_text (CheckLine (written_of test.now.agents test.now.check) ∷ [])) }
{
    out.push_str("check ")?;
    put_condition(out, test, test.check())?;
    out.push_str("\n")
}

/// The canonical text of a test: no indentation, no comment, no blank line, no else line with an empty part, and only
/// the parentheses that are needed. Each line ends with a byte 10. An `Err` is out of memory, with line 0.
pub fn show(alloc: Global, test: &Test) -> Result<Vec<u8>, ReadFault>
    ensures ok { IfOk result (λ text. text.items ≡ canonical test.now) }
    ensures fault { IfErr result (λ e. (e.kind ≡ OutOfMemory) × (e.line ≡ 0)) }
{
    let mut out = String::new(alloc);
    put_head(&mut out, test)?;
    put_agents(&mut out, test)?;
    put_check(&mut out, test)?;
    Ok(out.into_bytes())
}
