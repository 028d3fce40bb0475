// Values as people read them: VT1 and VT2 of docs/RULES.md. Counterpart of `display_value` of frame_definition/decode.rs and of `display` of
// command_class/decode.rs.
#![tactic(auto, using(crate::proofs::Laws::laws))]

ghost use Rattle.std.specs.Prelude.{◌≡◌, ◌&&◌, [], ◌%◌, ◌≤◌, length};
ghost use Rattle.refusal.specs.Refusal.{most_frame};
ghost use Rattle.buffer.specs.Buffer.{Writes};
ghost use Rattle.numerals.specs.Numerals.{decimal as decimalOf, signed as signed_of, hex as hexOf};
ghost use Rattle.display.specs.Display.{word, some?, value_text, if_valued, in_bytes, display_value, display as displayOf, display_bit};

use buffer::write;
use frame_text::ParamType;
use lossy::write_lossy;
use numerals::{ROOM, write_pairs};
use refusal::Refusal;

// `true` or `false`.
pub fn write_word(value: u64, buffer: &mut [u8]) -> Result<usize, Refusal>
    ensures { Writes (word value) buffer.old result buffer.new }
{
    if value == 0 {
        return write(b"false", buffer);
    }
    write(b"true", buffer)
}

// This and the next two differ in the call that spells the number, and are no longer than a call of one that takes it as a closure.
pub fn write_decimal(value: u64, buffer: &mut [u8]) -> Result<usize, Refusal>
    ensures { Writes (decimalOf value) buffer.old result buffer.new }
{
    let mut digits = [0u8; ROOM];
    let at = numerals::decimal(value, &mut digits);
    write(&digits[at..], buffer)
}

// The low byte as a signed number.
fn write_signed(value: u64, buffer: &mut [u8]) -> Result<usize, Refusal>
    ensures { Writes (signed_of (value % 256)) buffer.old result buffer.new }
{
    let mut digits = [0u8; ROOM];
    let at = numerals::signed((value % 256) as u8, &mut digits);
    write(&digits[at..], buffer)
}

fn write_hex(value: u64, buffer: &mut [u8]) -> Result<usize, Refusal>
    ensures { Writes (hexOf value) buffer.old result buffer.new }
{
    let mut digits = [0u8; ROOM];
    let at = numerals::hex(value, &mut digits);
    write(&digits[at..], buffer)
}

pub fn write_nothing(buffer: &mut [u8]) -> Result<usize, Refusal>
    ensures { Writes [] buffer.old result buffer.new }
{
    Ok(0)
}

fn write_typed(kind: ParamType, value: u64, buffer: &mut [u8]) -> Result<usize, Refusal>
    ensures { Writes (value_text kind value) buffer.old result buffer.new }
{
    match kind {
        ParamType::Hex | ParamType::Bitmask => write_hex(value, buffer),
        ParamType::Number | ParamType::NodeNumber => write_decimal(value, buffer),
        ParamType::NumberSigned => write_signed(value, buffer),
        ParamType::Boolean => write_word(value, buffer),
    }
}

fn write_value(kind: ParamType, value: Option<u64>, buffer: &mut [u8]) -> Result<usize, Refusal>
    ensures { Writes (if_valued kind value) buffer.old result buffer.new }
{
    match value {
        Some(v) => write_typed(kind, v, buffer),
        None => write_nothing(buffer),
    }
}

fn is_in_bytes(kind: ParamType) -> bool
    ensures { result ≡ in_bytes kind }
{
    matches!(kind, ParamType::Hex | ParamType::Bitmask)
}

// Does a field of this type show these bytes?
fn shows_bytes(kind: ParamType, bytes: &[u8]) -> bool
    ensures { result ≡ some? bytes.now && in_bytes kind }
{
    !bytes.is_empty() && is_in_bytes(kind)
}

// A field of a header. A symbol of no bytes is none.
pub fn display_value(
    symbol: &[u8],
    kind: ParamType,
    value: Option<u64>,
    bytes: &[u8],
    buffer: &mut [u8],
) -> Result<usize, Refusal>
    requires { length bytes.now ≤ most_frame }
    ensures { Writes (display_value symbol.now kind value bytes.now) buffer.old result buffer.new }
{
    if symbol.len() != 0 {
        return write(symbol, buffer);
    }
    if shows_bytes(kind, bytes) {
        return write_pairs(b"", bytes, buffer);
    }
    write_value(kind, value, buffer)
}

// A parameter of a command. A const's name of no bytes is none.
pub fn display(ascii: bool, name: &[u8], bytes: &[u8], buffer: &mut [u8]) -> Result<usize, Refusal>
    requires { length bytes.now ≤ most_frame }
    ensures { Writes (displayOf ascii name.now bytes.now) buffer.old result buffer.new }
{
    if ascii {
        return write_lossy(bytes, buffer);
    }
    if name.len() != 0 {
        return write(name, buffer);
    }
    if bytes.len() <= 4 {
        return write_pairs(b"0x", bytes, buffer);
    }
    write_pairs(b"", bytes, buffer)
}

// A bit child, which is a flag (a T line), or not (an S line).
pub fn display_bit(flag: bool, value: u64, buffer: &mut [u8]) -> Result<usize, Refusal>
    ensures { Writes (display_bit flag value) buffer.old result buffer.new }
{
    if flag {
        return write_word(value, buffer);
    }
    write_decimal(value, buffer)
}
