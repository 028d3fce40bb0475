// What is shown of a field of a header: VT1 and VT9 of docs/RULES.md. The header is read, and of its rows only the one that is asked for is written into a
// table of our own: it names the P line, whose type and define set say the rest.
#![tactic(auto, using(crate::proofs::Laws::laws))]

mod lookup;

ghost use Rattle.std.specs.Prelude.{◌≡◌, ◌≤◌, length, Some, Ok};
ghost use Rattle.refusal.specs.Refusal.{most_frame};
ghost use Rattle.frame_text.specs.Rules.{verdict};
ghost use Rattle.frame_definition.specs.Find.{meant};
ghost use Rattle.buffer.specs.Buffer.{Writes};
ghost use Rattle.header_value.specs.Fields.{value_by, bytes_of, field_text, row_text};
ghost use Rattle.header_value.specs.Lookup.{Stands};
ghost use Rattle.header_value.specs.Answer.{HeaderValue};

use display::{display_value, write_nothing};
use frame_definition::{Field, find_param};
use frame_text::check_frame_text;
use header::{MOST_NUMBERS, decode_row};
use header_paths::part_of;
use header_rows::{BITS, NUMBER, ROW_WIDTH, START, SYMBOL, VALUE, VALUED};
use lookup::symbol_text;
use refusal::Refusal;

// Numbers of a row that are shown: the start bit, the bits, whether there is a value, the value, and the symbol's number + 1 or 0.
#[derive(Clone, Copy)]
struct Shown {
    start: u64,
    bits: u64,
    valued: u64,
    value: u64,
    symbol: u64,
}

fn value_of(valued: u64, value: u64) -> Option<u64>
    ensures { result ≡ value_by valued value }
{
    (valued == 1).then_some(value)
}

// The bytes of a field over 64 bits, if they are whole bytes at a whole byte; else none.
fn bytes_of(mpdu: &[u8], start: u64, bits: u64) -> &[u8]
    ensures { result.now ≡ bytes_of mpdu.now start bits }
{
    if bits <= 64 {
        return &mpdu[..0];
    }
    if start % 8 != 0 {
        return &mpdu[..0];
    }
    if bits % 8 != 0 {
        return &mpdu[..0];
    }
    part_of(mpdu, start / 8, bits / 8)
}

// What is shown of a field.
fn field_value(
    text: &[u8],
    mpdu: &[u8],
    field: Field,
    shown: Shown,
    buffer: &mut [u8],
) -> Result<usize, Refusal>
    requires { (verdict text.now ≡ Ok tt) × (length mpdu.now ≤ most_frame) }
    ensures { Writes (field_text text.now mpdu.now (Some (meant text.now field)) shown.start shown.bits shown.valued
        shown.value shown.symbol) buffer.old result buffer.new }
{
    let symbol = symbol_text(text, field.set, shown.symbol);
    let bytes = bytes_of(mpdu, shown.start, shown.bits);
    let value = value_of(shown.valued, shown.value);
    display_value(symbol, field.kind, value, bytes, buffer)
}

// What is shown of a row of a header.
pub fn row_value(
    text: &[u8],
    mpdu: &[u8],
    rows: &[u64],
    row: usize,
    buffer: &mut [u8],
) -> Result<usize, Refusal>
    requires { (verdict text.now ≡ Ok tt) × (Stands mpdu.now rows.now row) }
    ensures { Writes (row_text text.now mpdu.now rows.now row) buffer.old result buffer.new }
{
    let at = row * ROW_WIDTH;
    let Some((field, _)) = find_param(text, rows[at + NUMBER]) else {
        return write_nothing(buffer);
    };
    let shown = Shown {
        start: rows[at + START],
        bits: rows[at + BITS],
        valued: rows[at + VALUED],
        value: rows[at + VALUE],
        symbol: rows[at + SYMBOL],
    };
    field_value(text, mpdu, field, shown, buffer)
}

// The same by a text that is accepted; or refusal 4 to 7, 11 or 12. For many MPDUs and one text.
pub fn value_accepted(
    text: &[u8],
    mpdu: &[u8],
    region: u64,
    speed: u64,
    row: usize,
    buffer: &mut [u8],
) -> Result<usize, Refusal>
    requires { verdict text.now ≡ Ok tt }
    ensures { HeaderValue text.now mpdu.now region speed row buffer.old result buffer.new }
{
    let mut rows = [0u64; MOST_NUMBERS];
    let header = decode_row(text, mpdu, region, speed, row, &mut rows)?;
    if header.rows <= row {
        return Err(Refusal::NoSuchField(row));
    }
    row_value(text, mpdu, &rows, row, buffer)
}

// A value of the header of an MPDU as people read it: of the field in a row, from 0. Answers its length, or refuses by 1 to 7, 11 or 12; a refusal
// writes nothing, an answer nothing past its length.
pub fn header_value(
    text: &[u8],
    mpdu: &[u8],
    region: u64,
    speed: u64,
    row: usize,
    buffer: &mut [u8],
) -> Result<usize, Refusal>
    ensures { HeaderValue text.now mpdu.now region speed row buffer.old result buffer.new }
{
    check_frame_text(text)?;
    value_accepted(text, mpdu, region, speed, row, buffer)
}
