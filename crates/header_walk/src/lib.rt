// The walk over loaded fields: H9 to H13 of docs/RULES.md. Counterpart of `decode_param` and of the two loops of
// `decode_header` of frame_definition/decode.rs. What is read goes into scratch rows (crate `header_paths`).
#![tactic(auto, using(crate::proofs::Laws::outer_laws, crate::proofs::Exists::width_laws, crate::proofs::Exists::extent_laws, crate::proofs::Exists::lay_laws, crate::proofs::Exists::row_laws))]

ghost use Rattle.std.specs.Prelude.{◌≡◌, [], ◌∷◌, ◌++◌, ◌+◌, ◌-◌, ◌*◌, ◌<◌, ◌≤◌, length};
ghost use Rattle.header_fields.specs.Fields.{line_width, level_in, fields_in};
ghost use Rattle.header_rules.specs.Loaded.{walked_from};
ghost use Rattle.header_rules.specs.Flat.{row_at};
ghost use Rattle.header_rules.specs.Span.{extent_at};
ghost use Rattle.header_paths.specs.Scratch.{scratch_width, rows_in, tells};
ghost use Rattle.header_walk.specs.Walk.{Shaped, Walks};
ghost use Rattle.header_walk.specs.Steps.{wanted, width, fitting, extent_of, Lays, field_done, field_read, inner_done, Reads, Fills};

use bits::read_bits;
use header_fields::{BITS, LINE_WIDTH, OPTIONAL, SIZE};
use header_paths::{BitOffset, Row, SCRATCH_WIDTH, find_inside, next_field, part_of};
pub use header_paths::{find_value, row_at};
use rows::put_row;

// The deepest level.
const DEEPEST: u64 = 7;

// Where a list of fields ends, and how many rows there are behind it.
#[derive(Clone, Copy)]
pub struct Walked {
    pub bit: BitOffset,
    pub rows: usize,
}

// Where a field is read: its place among the loaded fields, its bit, the row of the field that it is inside + 1 or 0, how many rows there are
// before it, and how many levels are left below it.
#[derive(Clone, Copy)]
pub struct Spot {
    pub place: usize,
    pub start: BitOffset,
    pub parent: u64,
    pub rows: usize,
    pub left: u64,
}

// A field whose inner fields are read: its place among the loaded fields, where it ends, how wide it is, how many rows there are with its own,
// which is the last of them, and how many levels are left below those inside it.
#[derive(Clone, Copy)]
pub struct Outer {
    pub place: usize,
    pub end: BitOffset,
    pub width: u64,
    pub rows: usize,
    pub left: u64,
}

// Is the optional path of a field missing, or does it find a nonzero value? Paths search the rows before it, in the list of its parent.
fn is_wanted(text: &[u8], fields: &[u64], count: usize, spot: Spot, rows: &[u64]) -> bool
    requires { (count * line_width ≤ length fields.now) × (spot.place < count) × (spot.rows * scratch_width ≤ length rows.now) }
    ensures { result ≡ wanted (fields_in text.now fields.now count) spot.place spot.parent (rows_in rows.now spot.rows) }
{
    let at = spot.place * LINE_WIDTH + OPTIONAL;
    let len = fields[at + 1];
    if len == 0 {
        return true;
    }
    let path = part_of(text, fields[at], len);
    let Some(value) = find_inside(text, fields, count, rows, spot.rows, path, spot.parent) else {
        return false;
    };
    0 < value
}

// The width of a field, or 0 where it is over `left`.
fn width_of(text: &[u8], fields: &[u64], count: usize, spot: Spot, rows: &[u64], left: u64) -> u64
    requires { (count * line_width ≤ length fields.now) × (spot.place < count) × (spot.rows * scratch_width ≤ length rows.now)
        × (left ≤ 16384) }
    ensures { result ≡ fitting (width (fields_in text.now fields.now count) spot.place spot.parent
        (rows_in rows.now spot.rows)) left }
{
    let i = spot.place;
    let at = i * LINE_WIDTH + SIZE;
    let len = fields[at + 1];
    if len == 0 {
        return fitting(fields[i * LINE_WIDTH + BITS], left);
    }
    let path = part_of(text, fields[at], len);
    let Some(bytes) = find_inside(text, fields, count, rows, spot.rows, path, spot.parent) else {
        return 0;
    };
    bits_of(bytes, left)
}

// The bits of so many bytes, or 0 where they are over `left`: the product is made only where it fits.
fn bits_of(bytes: u64, left: u64) -> u64
    ensures { result ≡ fitting (8 * bytes) left }
{
    if left / 8 < bytes {
        return 0;
    }
    bytes * 8
}

// A width, or 0 where it is over `left`.
fn fitting(bits: u64, left: u64) -> u64
    ensures { result ≡ fitting bits left }
{
    if left < bits {
        return 0;
    }
    bits
}

// How wide a field is, if it exists where `left` bits are left.
fn extent_of(
    text: &[u8],
    fields: &[u64],
    count: usize,
    spot: Spot,
    rows: &[u64],
    left: u64,
) -> Option<u64>
    requires { (count * line_width ≤ length fields.now) × (spot.place < count) × (spot.rows * scratch_width ≤ length rows.now)
        × (left ≤ 16384) }
    ensures { result ≡ extent_of (fields_in text.now fields.now count) spot.place spot.parent left
        (rows_in rows.now spot.rows) }
{
    if !is_wanted(text, fields, count, spot, rows) {
        return None;
    }
    let bits = width_of(text, fields, count, spot, rows, left);
    if bits == 0 {
        return None;
    }
    Some(bits)
}

// The row of a field that exists. One of more than 64 bits has no value.
fn row_of(mpdu: &[u8], place: u64, parent: u64, start: BitOffset, bits: u64) -> Row
    requires { (0 < bits) × (start.0 + bits ≤ length mpdu.now * 8) }
    ensures { tells result ≡ row_at mpdu.now place parent start.0 bits }
{
    match read_bits(mpdu, start.0, bits) {
        Some(value) => Row {
            place,
            parent,
            start,
            bits,
            valued: 1,
            value,
        },
        None => Row {
            place,
            parent,
            start,
            bits,
            valued: 0,
            value: 0,
        },
    }
}

// Writes row n.
fn write_row(rows: &mut [u64], n: usize, row: Row)
    requires { (n + 1) * scratch_width ≤ length rows.old }
    ensures { rows_in rows.new (n + 1) ≡ rows_in rows.old n ++ (tells row ∷ []) }
{
    let start = row.start;
    let numbers = [
        row.place, row.parent, start.0, row.bits, row.valued, row.value,
    ];
    put_row(rows, n * SCRATCH_WIDTH, &numbers);
}

// Writes the own row of a field behind the rows before it, if it exists. Answers how wide it is.
fn lay_row(
    mpdu: &[u8],
    text: &[u8],
    fields: &[u64],
    count: usize,
    spot: Spot,
    rows: &mut [u64],
) -> Option<u64>
    requires shaped { Shaped mpdu.now fields.now count }
    requires place_lt_count { (spot.place < count) × (spot.start.0 ≤ length mpdu.now * 8) × ((spot.rows + 1) * scratch_width ≤ length rows.old) }
    ensures { Lays (fields_in text.now fields.now count) mpdu.now rows.old rows.new spot.place
        spot.start.0 spot.parent spot.rows result }
{
    let start = spot.start;
    let left = mpdu.len() as u64 * 8 - start.0;
    let bits = extent_of(text, fields, count, spot, &rows[..], left)?;
    let row = row_of(mpdu, spot.place as u64, spot.parent, start, bits);
    write_row(rows, spot.rows, row);
    Some(bits)
}

// Reads a field, and the fields inside it: their rows are written behind the rows before it.
#[cycle(decode_inner_decode_param)]
fn decode_param(
    mpdu: &[u8],
    text: &[u8],
    fields: &[u64],
    count: usize,
    spot: Spot,
    rows: &mut [u64],
) -> Option<(usize, u64)>
    requires shaped { Shaped mpdu.now fields.now count }
    requires place_lt_count { (spot.place < count) × (level_in fields.now spot.place + spot.left ≡ 7) × (spot.start.0 ≤ length mpdu.now * 8)
        × ((spot.rows + extent_at (fields_in text.now fields.now count) spot.place) * scratch_width ≤ length rows.old) }
    ensures { let ps = fields_in text.now fields.now count in
        let d = mpdu.now in
        let before = rows_in rows.old spot.rows in
        Reads rows.new (field_read ps d spot.left spot.place spot.start.0 spot.parent before)
        (field_done ps d spot.left spot.place spot.start.0 spot.parent before) result }
{
    let bits = lay_row(mpdu, text, fields, count, spot, rows)?;
    let own = spot.rows + 1;
    if spot.left == 0 {
        return Some((own, bits));
    }
    let outer = Outer {
        place: spot.place,
        end: BitOffset(spot.start.0 + bits),
        width: bits,
        rows: own,
        left: spot.left - 1,
    };
    let after = decode_inner(mpdu, text, fields, count, outer, rows);
    Some((after, bits))
}

// Reads the fields inside a field: from its end downwards, while the declared widths fit. One that is missing keeps its room. Returns how many rows
// there are then.
#[cycle(decode_inner_decode_param)]
fn decode_inner(
    mpdu: &[u8],
    text: &[u8],
    fields: &[u64],
    count: usize,
    outer: Outer,
    rows: &mut [u64],
) -> usize
    requires shaped { Shaped mpdu.now fields.now count }
    requires place_lt_count { (outer.place < count) × (level_in fields.now outer.place + outer.left + 1 ≡ 7) × (outer.end.0 ≤ length mpdu.now * 8)
        × (outer.width ≤ outer.end.0)
        × ((outer.rows + extent_at (fields_in text.now fields.now count) outer.place) * scratch_width ≤ length rows.old + scratch_width) }
    ensures { let ps = fields_in text.now fields.now count in
        Fills rows.new (inner_done ps mpdu.now outer.left outer.place outer.end.0 outer.width
        (rows_in rows.old outer.rows)) result }
{
    let left = outer.left;
    let level = DEEPEST - left;
    let mut order: u64 = 0;
    let mut place: usize = 0;
    let mut room = outer.width;
    let mut bit = outer.end.0;
    let mut next = outer.rows;
    while let Some(inner) = next_field(fields, count, level, outer.place + 1, order, place) {
        let bits = inner.bits;
        order = inner.order;
        place = inner.place + 1;
        if room < bits {
            break;
        }
        bit -= bits;
        room -= bits;
        let spot = Spot {
            place: inner.place,
            start: BitOffset(bit),
            parent: outer.rows as u64,
            rows: next,
            left,
        };
        if let Some((after, _)) = decode_param(mpdu, text, fields, count, spot, rows) {
            next = after;
        }
    }
    next
}

// Reads the outer fields from the place `first` on, one after the other, from where a walk has come to. A missing one ends the walk.
pub fn walk_from(
    mpdu: &[u8],
    text: &[u8],
    fields: &[u64],
    count: usize,
    first: usize,
    from: Walked,
    rows: &mut [u64],
) -> Walked
    requires shaped { Shaped mpdu.now fields.now count }
    requires first_le_count { (first ≤ count) × (from.bit.0 ≤ length mpdu.now * 8) × ((from.rows + (count - first)) * scratch_width ≤ length rows.old) }
    ensures { let ps = fields_in text.now fields.now count in
        let w = walked_from ps mpdu.now first from.bit.0 (rows_in rows.old from.rows) in
        Walks mpdu.now rows.old rows.new from.rows (count - first) w result }
{
    let mut order: u64 = 0;
    let mut place: usize = 0;
    let mut bit = from.bit.0;
    let mut next = from.rows;
    while let Some(outer) = next_field(fields, count, 0, first, order, place) {
        order = outer.order;
        place = outer.place + 1;
        let spot = Spot {
            place: outer.place,
            start: BitOffset(bit),
            parent: 0,
            rows: next,
            left: DEEPEST,
        };
        let Some((after, bits)) = decode_param(mpdu, text, fields, count, spot, rows) else {
            break;
        };
        bit += bits;
        next = after;
    }
    Walked {
        bit: BitOffset(bit),
        rows: next,
    }
}
