// What is shown of a row of a command: VT2 and VT11 of docs/RULES.md. The row that is asked for is walked to, and names the lines that say how.
#![tactic(auto, using(crate::proofs::Laws::laws))]

mod lookup;

ghost use Rattle.std.specs.Prelude.{◌≡◌, ◌≤◌, length, Ok};
ghost use Rattle.refusal.specs.Refusal.{most_frame};
ghost use Rattle.command_text.specs.Rules.{verdict};
ghost use Rattle.buffer.specs.Buffer.{Writes};
ghost use Rattle.command_value.specs.Params.{param_text, bit_text, row_text};
ghost use Rattle.command_value.specs.Answer.{CommandValue};

use command_row::{bytes_of, row_accepted};
use command_rules::{BIT_KIND, Offsets, PARAM_KIND, Row};
use command_text::check_command_text;
use display::{display, display_bit, write_nothing};
use lookup::{find_items, is_ascii, is_flag, name_by, shown_by};
use refusal::Refusal;

// What is shown of a parameter.
fn param_value(text: &[u8], payload: &[u8], row: Row, buffer: &mut [u8]) -> Result<usize, Refusal>
    requires { (verdict text.now ≡ Ok tt) × (length payload.now ≤ most_frame) }
    ensures { Writes (param_text text.now payload.now row) buffer.old result buffer.new }
{
    let items = find_items(text, row.line);
    let bytes = bytes_of(payload, row);
    let shown = shown_by(text, items, row.named);
    display(is_ascii(shown), name_by(text, shown), bytes, buffer)
}

// What is shown of a bit child.
fn bit_value(text: &[u8], row: Row, buffer: &mut [u8]) -> Result<usize, Refusal>
    requires { verdict text.now ≡ Ok tt }
    ensures { Writes (bit_text text.now row) buffer.old result buffer.new }
{
    display_bit(is_flag(text, row.line), row.value, buffer)
}

// What is shown of a row of a command.
pub fn row_value(text: &[u8], payload: &[u8], row: Row, buffer: &mut [u8]) -> Result<usize, Refusal>
    requires { (verdict text.now ≡ Ok tt) × (length payload.now ≤ most_frame) }
    ensures { Writes (row_text text.now payload.now row) buffer.old result buffer.new }
{
    if row.kind == PARAM_KIND {
        return param_value(text, payload, row, buffer);
    }
    if row.kind == BIT_KIND {
        return bit_value(text, row, buffer);
    }
    write_nothing(buffer)
}

// The same of the row of this number by a text that is accepted; or refusal 4, 5, 11 or 12. For many commands and one text.
pub fn value_accepted(
    text: &[u8],
    payload: &[u8],
    offsets: Offsets,
    row: usize,
    buffer: &mut [u8],
) -> Result<usize, Refusal>
    requires { verdict text.now ≡ Ok tt }
    ensures { CommandValue offsets text.now payload.now row buffer.old result buffer.new }
{
    let found = row_accepted(text, payload, offsets, row)?;
    row_value(text, payload, found, buffer)
}

// A value of a command as people read it: of the row of this number, from 0, with offsets read in one of the two ways. Answers its length, or refuses
// by 1 to 5, 11 or 12; a refusal writes nothing, an answer nothing past its length.
pub fn command_value(
    text: &[u8],
    payload: &[u8],
    offsets: Offsets,
    row: usize,
    buffer: &mut [u8],
) -> Result<usize, Refusal>
    ensures { CommandValue offsets text.now payload.now row buffer.old result buffer.new }
{
    check_command_text(text)?;
    value_accepted(text, payload, offsets, row, buffer)
}
