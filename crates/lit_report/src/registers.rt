//! Prints registers with their values.

ghost use Rattle.std.specs.Prelude.{◌<◌, ◌≤◌, ◌++◌, All, length, codes};
ghost use Rattle.std.specs.Fmt.{decimal};
ghost use Rattle.lit_report.specs.EntryCache.{register_head};
ghost use Rattle.lit_report.specs.EntryText.{register_text, registers_text};
ghost use Rattle.lit_report.specs.Writing.{HasPutOn};

use crate::buffer::Buffer;
use crate::counted::Counted;
use lit_syntax::Test;
use std::io::Write;

/// Puts a blank and the name of a register, by its agent's name and its number. It puts a short name in two calls.
fn put_register_name<W: Write>(
    buffer: &mut Buffer,
    output: &mut Counted<W>,
    agent: &[u8],
    register: u8,
)
    ensures { HasPutOn W.contents output.old output.new buffer.old buffer.new
        (codes " " ++ agent.now ++ codes ".r" ++ decimal register) }
{
    if agent.len() == 1 && register < 10 {
        buffer.put_four(output, [b' ', agent[0], b'.', b'r']);
        buffer.put_byte(output, b'0' + register);
        return;
    }
    buffer.put_byte(output, b' ');
    buffer.put(output, agent);
    buffer.put(output, b".r");
    buffer.put_number(output, register as u64);
}

/// Puts a register of an outcome up to its value, named by agent and register.
pub(crate) fn put_register_head<W: Write>(
    buffer: &mut Buffer,
    output: &mut Counted<W>,
    test: &Test,
    name: (u8, u8),
)
    requires { name.0 < length test.now.agents }
    ensures { HasPutOn W.contents output.old output.new buffer.old buffer.new (register_head test.now name) }
{
    put_register_name(
        buffer,
        output,
        test.agent_name(name.0 as usize).as_bytes(),
        name.1,
    );
    buffer.put_byte(output, b'=');
}

/// Puts a register of an outcome, named by agent and register, with its value.
fn put_register<W: Write>(
    buffer: &mut Buffer,
    output: &mut Counted<W>,
    test: &Test,
    name: (u8, u8),
    value: u32,
)
    requires { name.0 < length test.now.agents }
    ensures { HasPutOn W.contents output.old output.new buffer.old buffer.new
        (register_text test.now (name, value)) }
{
    put_register_head(buffer, output, test, name);
    buffer.put_number(output, value as u64);
}

/// Puts the first registers of an outcome with their values, one for each value of a list.
pub fn put_registers<W: Write>(
    buffer: &mut Buffer,
    output: &mut Counted<W>,
    test: &Test,
    names: &[(u8, u8)],
    values: &[u32],
)
    requires known { All (λ name. name.0 < length test.now.agents) names.now }
    requires named { length values.now ≤ length names.now }
    ensures { HasPutOn W.contents output.old output.new buffer.old buffer.new
        (registers_text test.now names.now values.now) }
{
    for (place, value) in values.iter().enumerate() {
        put_register(buffer, output, test, names[place], *value);
    }
}
