// The values of attributes as they are written: X13 of docs/RULES.md.
#![tactic(auto, using(crate::proofs::Laws::laws))]

ghost use Rattle.append.specs.Append.{Room, Laid};
ghost use Rattle.xml_spelling.specs.Spelling.{escape_of, escaped, hexed, flagged};

use append::{append, append_byte};
use numerals::{CAPITAL, ROOM, spell};
use text::read_value;

// A byte of a value, by its name if it has one.
fn append_escape(buffer: &mut [u8], at: usize, b: u8) -> usize
    requires { Room at (escape_of b) }
    ensures { Laid (escape_of b) buffer.old at result buffer.new }
{
    match b {
        b'&' => append(buffer, at, b"&amp;"),
        b'<' => append(buffer, at, b"&lt;"),
        b'>' => append(buffer, at, b"&gt;"),
        b'"' => append(buffer, at, b"&quot;"),
        b'\'' => append(buffer, at, b"&apos;"),
        _ => append_byte(buffer, at, b),
    }
}

// Words, with the five escapes.
pub fn append_escaped(buffer: &mut [u8], at: usize, s: &[u8]) -> usize
    requires { Room at (escaped s.now) }
    ensures { Laid (escaped s.now) buffer.old at result buffer.new }
{
    let mut next = at;
    for b in s {
        next = append_escape(buffer, next, *b);
    }
    next
}

// The number of a field, in hexadecimal.
pub fn append_hex(buffer: &mut [u8], at: usize, field: &[u8]) -> usize
    requires { Room at (hexed field.now) }
    ensures { Laid (hexed field.now) buffer.old at result buffer.new }
{
    let n = read_value(field, 65535);
    let mut digits = [0u8; ROOM];
    let start = spell(n as u64, 16, CAPITAL, 1, &mut digits);
    let next = append(buffer, at, b"0x");
    append(buffer, next, &digits[start..])
}

// A flag, by its digit.
pub fn append_flag(buffer: &mut [u8], at: usize, digit: u8) -> usize
    requires { Room at (flagged digit) }
    ensures { Laid (flagged digit) buffer.old at result buffer.new }
{
    if digit == b'1' {
        return append(buffer, at, b"true");
    }
    append(buffer, at, b"false")
}
