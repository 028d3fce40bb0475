// Which bits of a header are which field, as a picture: the bits, 32 on a line, and below each the letter of the innermost
// field that it belongs to.
ghost use Rattle.std.specs.Prelude.{◌<◌, ◌≤◌};

use header_rows::{BITS, ROW_WIDTH, START};
use readers::cells::cell;
use writer::{Buffer, put, put_byte, put_marked};

// How many bits a line has.
const LINE: usize = 32;

// The letter of row i.
pub fn letter(i: usize) -> u8 {
    match i {
        0..=25 => b'a' + i as u8,
        26..=51 => b'A' + (i - 26) as u8,
        _ => b'*',
    }
}

fn covers(rows: &[u64], i: usize, bit: u64) -> bool {
    let start = cell(rows, ROW_WIDTH, i, START);
    start <= bit && bit - start < cell(rows, ROW_WIDTH, i, BITS)
}

// The letter of the last of n rows that cover a bit: a field stands before those inside it. A dot where there is none.
fn mark_at(rows: &[u64], n: usize, bit: u64) -> u8 {
    for i in (0..n).rev() {
        if covers(rows, i, bit) {
            return letter(i);
        }
    }
    b'.'
}

// The digit of a bit. First is the highest of the first byte.
fn digit_at(mpdu: &[u8], bit: usize) -> u8 {
    match mpdu.get(bit / 8) {
        Some(byte) if (*byte >> (7 - bit % 8)) & 1 == 1 => b'1',
        Some(_) => b'0',
        None => b' ',
    }
}

// A character for a bit, with a blank before each byte.
fn put_bit(out: &mut Buffer, at: usize, bit: usize, character: u8) -> usize {
    let mut place = at;
    if bit % 8 == 0 {
        place = put_byte(out, place, b' ');
    }
    put_byte(out, place, character)
}

// The digits of the bits from one place to another.
fn put_digits(out: &mut Buffer, at: usize, mpdu: &[u8], from: usize, to: usize) -> usize {
    let mut place = at;
    for bit in from..to {
        place = put_bit(out, place, bit, digit_at(mpdu, bit));
    }
    place
}

// The letters below them.
fn put_marks(out: &mut Buffer, at: usize, rows: &[u64], n: usize, from: usize, to: usize) -> usize {
    let mut place = at;
    for bit in from..to {
        place = put_bit(out, place, bit, mark_at(rows, n, bit as u64));
    }
    place
}

fn put_digit_line(out: &mut Buffer, at: usize, mpdu: &[u8], from: usize, to: usize) -> usize {
    let mut place = put_marked(out, at, b"bit ", from as u64, 9);
    place = put(out, place, b" ");
    place = put_digits(out, place, mpdu, from, to);
    put(out, place, b"\n")
}

fn put_mark_line(
    out: &mut Buffer,
    at: usize,
    rows: &[u64],
    n: usize,
    from: usize,
    to: usize,
) -> usize {
    let mut place = put(out, at, b"          ");
    place = put_marks(out, place, rows, n, from, to);
    put(out, place, b"\n")
}

// Where the line of bits from a place ends.
fn line_end(from: usize, end: usize) -> usize
    requires { from < end }
    ensures { (from < result) × (result ≤ end) }
{
    from + LINE.min(end - from)
}

// The picture of the first `end` bits of an MPDU, by the n rows of its header.
pub fn put_ruler(
    out: &mut Buffer,
    at: usize,
    mpdu: &[u8],
    rows: &[u64],
    n: usize,
    end: usize,
) -> usize {
    let mut place = at;
    let mut from: usize = 0;
    while from < end {
        let to = line_end(from, end);
        place = put_digit_line(out, place, mpdu, from, to);
        place = put_mark_line(out, place, rows, n, from, to);
        from = to;
    }
    place
}
