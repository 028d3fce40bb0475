// One Q of a command: whether it exists, its value, its row and its bit children. Counterpart of `read_uint`, `decode_bits` and `decode_param` of
// command_class/decode.rs.
#![tactic(auto, using(crate::proofs::Bits::line_laws, crate::proofs::Values::value_laws, crate::proofs::Bits::children_laws, crate::proofs::Laws::param_laws, crate::proofs::Laws::row_laws, crate::proofs::Values::uint_laws, crate::proofs::Laws::own_laws, crate::proofs::Laws::written_laws))]

ghost use Rattle.std.specs.Prelude.{◌≡◌, [], ◌∷◌, ◌+◌, ◌-◌, ◌%◌, ◌^◌, ◌≤◌, ◌<◌, length};
ghost use Rattle.command_text.specs.Letters.{letter_t, letter_s};
ghost use Rattle.command_class.specs.Definition.{under};
ghost use Rattle.command_class.specs.Find.{from, among};
ghost use Rattle.command_lengths.specs.Entries.{entries, earlier};
ghost use Rattle.command_rows.specs.Rows.{written, Writes};
ghost use Rattle.command_schema.specs.Loaded.{after, field_in, Stands};
ghost use Rattle.command_rules.specs.Param.{in_payload, value_of, valued, const_line, entry_of, bit_row, bit_rows, child_rows, row_of};
ghost use Rattle.command_param.specs.Steps.{bit_number, WritesParam, ReadsParam};

use command_class::Row as Line;
use command_lengths::NO_VALUE;
use command_rules::{BIT_KIND, BitShift, Length, PARAM_KIND, Row};
use command_schema::Loaded;
use records::{BodyOffset, PayloadOffset};

// Bytes of command class and command that precede a command's params.
const CMD_HEADER: usize = 2;

// What reading a Q that exists gives: where it ends in the body, the entry that it is for those after it, how many rows it has.
#[derive(Clone, Copy)]
pub struct Param {
    pub end: BodyOffset,
    pub entry: u16,
    pub count: usize,
}

// Where a Q is read: its place in the body, the number of its own row, its parent's row + 1, or 0, and how many rows the table passes over.
#[derive(Clone, Copy)]
pub struct Spot {
    pub at: BodyOffset,
    pub row: usize,
    pub parent: u64,
    pub skip: usize,
}

// What is written of a Q.
#[derive(Clone, Copy)]
pub struct Wrote {
    pub entry: u16,
    pub count: usize,
}

// A place of the body as a place of the payload.
pub fn in_payload(at: BodyOffset) -> PayloadOffset
    requires { at.0 < 2 ^ 32 }
    ensures { result.0 ≡ in_payload at.0 }
{
    at.in_payload(PayloadOffset(CMD_HEADER))
}

// A number of 1 to 8 bytes, the first highest.
pub fn read_uint(bytes: &[u8]) -> Option<u64>
    ensures { result ≡ value_of bytes.now }
{
    if bytes.len() < 1 {
        return None;
    }
    if 8 < bytes.len() {
        return None;
    }
    let mut v: u64 = 0;
    for b in bytes {
        v = v * 256 + *b as u64;
    }
    Some(v)
}

fn low_byte(v: u64) -> u16
    ensures { result ≡ v % 256 }
{
    (v % 256) as u16
}

// The entry that a value is for those after it: its low byte, or that there is none.
fn entry_of(value: Option<u64>) -> u16
    ensures { earlier result ≡ entry_of value }
{
    let Some(v) = value else {
        return NO_VALUE;
    };
    low_byte(v)
}

// The line of the K that names a Q's value, or 0.
fn const_line(text: &[u8], q: Loaded, value: Option<u64>) -> u64
    requires { Stands text.now q }
    ensures { result ≡ const_line (field_in text.now q) value }
{
    let Some(v) = value else {
        return 0;
    };
    if q.named != 1 {
        return 0;
    }
    command_class::find_const(text, q.next(), low_byte(v)) as u64
}

fn valued_of(value: Option<u64>) -> u64
    ensures { result ≡ valued value }
{
    match value {
        Some(_) => 1,
        None => 0,
    }
}

// The row of a Q that takes these bytes and lacks so many more.
fn param_row(
    text: &[u8],
    q: Loaded,
    bytes: &[u8],
    start: PayloadOffset,
    parent: u64,
    lacking: usize,
) -> Row
    requires { (Stands text.now q) × (start.0 + length bytes.now < 2 ^ 63) }
    ensures { result ≡ row_of (field_in text.now q) parent start.0 bytes.now lacking }
{
    let value = read_uint(bytes);
    Row {
        kind: PARAM_KIND,
        line: q.line as u64,
        parent,
        start: start.0 as u64,
        end: (start.0 + bytes.len()) as u64,
        valued: valued_of(value),
        value: value.unwrap_or(0),
        named: const_line(text, q, value),
        number: 0,
        lacking: lacking as u64,
    }
}

// The value of a T or S line of the byte b.
fn bit_value(line: Line, b: u16) -> u64
    ensures { result ≡ bit_number b line }
{
    if line.kind != b'T' {
        return command_lengths::mask_shift(b, line.mask, BitShift(line.shift)) as u64;
    }
    if b & line.mask == 0 {
        return 0;
    }
    1
}

// The row of a T or S line, with its number in the text.
fn bit_row(line: Line, number: usize, b: u16, start: PayloadOffset, parent: u64) -> Row
    requires { start.0 < 2 ^ 62 }
    ensures { result ≡ bit_row number parent start.0 (bit_number b line) }
{
    Row {
        kind: BIT_KIND,
        line: number as u64,
        parent,
        start: start.0 as u64,
        end: (start.0 + 1) as u64,
        valued: 1,
        value: bit_value(line, b),
        named: 0,
        number: 0,
        lacking: 0,
    }
}

fn is_bits(kind: u8) -> bool
    ensures { result ≡ among letter_t letter_s letter_s kind }
{
    if kind == b'T' {
        return true;
    }
    kind == b'S'
}

// The bit children of the byte b, which stands at `start`. `rows` is the table from their first row on.
fn decode_bits(
    text: &[u8],
    q: Loaded,
    b: u16,
    start: PayloadOffset,
    parent: u64,
    skip: usize,
    rows: &mut [u64],
) -> usize
    requires { (Stands text.now q) × (start.0 < 2 ^ 62) }
    ensures writes { Writes skip rows.old 0 (bit_rows b parent start.0 (under (from text.now (after q)))) rows.new result }
    ensures upper_bound { result < 65536 }
{
    let total = q.bits as usize;
    let mut place = q.next();
    let mut k: usize = 0;
    while k < total {
        let read = command_class::read_at(text, place);
        let line = read.row;
        if is_bits(line.kind) {
            command_rows::write_row(rows, skip, k, bit_row(line, place.line, b, start, parent));
            k += 1;
            place = read.next;
            continue;
        }
        place = read.next;
    }
    total
}

// The children of a Q that takes these bytes, from row 1 of `rows` on.
fn write_children(
    text: &[u8],
    q: Loaded,
    bytes: &[u8],
    start: PayloadOffset,
    parent: u64,
    skip: usize,
    rows: &mut [u64],
) -> usize
    requires { (Stands text.now q) × (start.0 < 2 ^ 62) }
    ensures writes { Writes skip rows.old 1 (child_rows (field_in text.now q) parent start.0 bytes.now)
        rows.new result }
    ensures upper_bound { result < 65536 }
{
    if bytes.len() != 1 {
        return 0;
    }
    let total = q.bits as usize;
    if total == 0 {
        return 0;
    }
    if command_rows::is_left_out(skip, total + 1, rows.len()) {
        return total;
    }
    let b = bytes[0] as u16;
    let rest = command_rows::row_at(skip, 1, rows.len());
    let left = skip.saturating_sub(1);
    decode_bits(text, q, b, start, parent, left, &mut rows[rest..])
}

// Writes the own row of a Q that takes these bytes and lacks so many more as row 0. Where it is passed over or has no room, it is not made.
fn write_own(text: &[u8], q: Loaded, bytes: &[u8], spot: Spot, lacking: usize, rows: &mut [u64])
    requires { (Stands text.now q) × (spot.at.0 + length bytes.now < 65536) }
    ensures { rows.new ≡ written spot.skip rows.old 0
        (row_of (field_in text.now q) spot.parent (in_payload spot.at.0) bytes.now lacking ∷ []) }
{
    if command_rows::is_left_out(spot.skip, 1, rows.len()) {
        return;
    }
    let at = spot.at;
    let start = in_payload(at);
    let row = param_row(text, q, bytes, start, spot.parent, lacking);
    command_rows::write_row(rows, spot.skip, 0, row);
}

// Writes a Q of this length. `rows` is the table from its own row on.
fn write_param(
    text: &[u8],
    q: Loaded,
    body: &[u8],
    spot: Spot,
    size: Length,
    rows: &mut [u64],
) -> Wrote
    requires { (Stands text.now q) × (length body.now < 65536) × (spot.at.0 + size.taken ≤ length body.now) × (spot.row < 2 ^ 50) }
    ensures { WritesParam body.now (field_in text.now q) spot.at.0 size spot.row spot.parent spot.skip
        rows.old rows.new result }
{
    let at = spot.at;
    let from = at.0;
    let end = from + size.taken;
    let bytes = &body[from..end];
    write_own(text, q, bytes, spot, size.lacking, rows);
    let start = in_payload(at);
    let parent = (spot.row + 1) as u64;
    let children = write_children(text, q, bytes, start, parent, spot.skip, rows);
    Wrote {
        entry: entry_of(read_uint(bytes)),
        count: children + 1,
    }
}

// How many bytes of the body remain at a place.
pub fn remaining(body: &[u8], at: BodyOffset) -> usize
    ensures { result ≡ length body.now - at.0 }
{
    body.len().saturating_sub(at.0)
}

// Reads a Q after the entries `es` of its list. `rows` is the table from its own row on.
pub fn decode_param(
    text: &[u8],
    q: Loaded,
    body: &[u8],
    spot: Spot,
    es: &[u16],
    rows: &mut [u64],
) -> Option<Param>
    requires { (Stands text.now q) × (length body.now < 65536) × (spot.row < 2 ^ 50) }
    ensures { ReadsParam body.now (field_in text.now q) (entries es.now) spot.at.0 spot.row spot.parent
        spot.skip rows.old 0 rows.new result }
{
    let at = spot.at;
    let rest = remaining(body, at);
    let size = command_lengths::size_of(q.optionaloffs, q.optionalmask, q.rule(), es, rest)?;
    let wrote = write_param(text, q, body, spot, size, rows);
    Some(Param {
        end: BodyOffset(at.0 + size.taken),
        entry: wrote.entry,
        count: wrote.count,
    })
}
