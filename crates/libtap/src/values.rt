// The calls on values as people read them.
ghost use Rattle.std.specs.Prelude.{◌≡◌};
ghost use Rattle.command.specs.Answer.{offsets_by};
ghost use Rattle.libtap.specs.Values.{told_written, ToldHeaderValue, ToldCommandValue};

use crate::{TapAnswer, answer, refuse};
use command::offsets_by;
use command_value::command_value;
use header_value::header_value;
use refusal::Refusal;

pub fn tell_written(written: Result<usize, Refusal>) -> TapAnswer
    ensures { result ≡ told_written written }
{
    match written {
        Ok(n) => answer(n as u64),
        Err(refusal) => refuse(refusal),
    }
}

// A row of the header that `tap_decode_header` answers, as people read it, into the buffer (VT1 of docs/RULES.md). Answers its length, or refusal 1 to 7,
// 11 or 12.
pub fn tap_header_value(
    text: &[u8],
    mpdu: &[u8],
    region: u64,
    speed: u64,
    row: usize,
    buffer: &mut [u8],
) -> TapAnswer
    ensures { ToldHeaderValue text.now mpdu.now region speed row buffer.old result buffer.new }
{
    let written = header_value(text, mpdu, region, speed, row, buffer);
    tell_written(written)
}

// A row of those that `tap_decode_params` writes, as people read it, into the buffer (VT2). Answers its length, or refusal 1 to 5, 11 or 12.
pub fn tap_command_value(
    text: &[u8],
    payload: &[u8],
    position: bool,
    row: usize,
    buffer: &mut [u8],
) -> TapAnswer
    ensures { ToldCommandValue (offsets_by position) text.now payload.now row buffer.old result buffer.new }
{
    let written = command_value(text, payload, offsets_by(position), row, buffer);
    tell_written(written)
}
