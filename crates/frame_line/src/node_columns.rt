// Who speaks to whom: the columns of home id, source and destination, from a header's rows.
ghost use Rattle.std.specs.Prelude.{◌≡◌, ◌<◌, length, Ok};
ghost use Rattle.frame_text.specs.Rules.{verdict};

use crate::mask_column::{WIDTH, put_mask};
use header_rows::{NUMBER, ROW_WIDTH};
use readers::cells::first_row;
use readers::line_fields::field_of;
use readers::lines::{line, next_line};
use shown_rows::{MOST, show_field};
use std::num::wrapping_add_u64;
use text::is_same;
use writer::{Buffer, put, put_right};

// The bytes of the columns of the home id and of the source, with the two before each.
pub const HOME: usize = 12;

pub const SOURCE: usize = 11;

// The first of n rows for the P line at a place, if that has a name; n where there is none.
fn row_at(text: &[u8], at: usize, rows: &[u64], n: usize, number: u64, name: &[u8]) -> usize
    requires { at < length text.now }
{
    if text[at] != b'P' {
        return n;
    }
    if is_same(field_of(line(text, at), 5), name) {
        return first_row(rows, ROW_WIDTH, n, NUMBER, number);
    }
    n
}

// One more after a P line.
fn counted(kind: u8, n: u64) -> u64 {
    if kind == b'P' {
        return wrapping_add_u64(n, 1);
    }
    n
}

// The first of the rows whose P line has a name; as many as there are rows where there is none.
fn find_row(text: &[u8], rows: &[u64], name: &[u8]) -> usize {
    let mut first = rows.len() / ROW_WIDTH;
    let mut at: usize = 0;
    let mut number: u64 = 0;
    while at < text.len() {
        first = row_at(text, at, rows, first, number, name);
        number = counted(text[at], number);
        at = next_line(text, at);
    }
    first
}

// The first n bytes at the right of a column, or a dash for none.
fn put_shown(out: &mut Buffer, at: usize, value: &[u8], n: usize, width: usize) -> usize {
    match value.get(..n) {
        Some(shown) if 0 < n => put_right(out, at, shown, width),
        _ => put_right(out, at, b"-", width),
    }
}

// The value of row i of a header at the right of a column; a dash where it has none, or where there is no such row.
fn put_value(
    out: &mut Buffer,
    at: usize,
    text: &[u8],
    mpdu: &[u8],
    rows: &[u64],
    i: usize,
    width: usize,
) -> usize
    requires { verdict text.now ≡ Ok tt }
{
    let mut value = [0u8; MOST];
    let n = show_field(text, mpdu, rows, i, &mut value);
    put_shown(out, at, &value, n, width)
}

// The nodes that a multicast is for are a mask.
fn put_multicast(out: &mut Buffer, at: usize, text: &[u8], mpdu: &[u8], rows: &[u64]) -> usize {
    let i = find_row(text, rows, b"NodeMask");
    if rows.len() / ROW_WIDTH <= i {
        return put_right(out, at, b"-", WIDTH);
    }
    put_mask(out, at, text, mpdu, rows, i)
}

fn put_destination(out: &mut Buffer, at: usize, text: &[u8], mpdu: &[u8], rows: &[u64]) -> usize
    requires { verdict text.now ≡ Ok tt }
{
    let i = find_row(text, rows, b"DestinationNodeID");
    if rows.len() / ROW_WIDTH <= i {
        return put_multicast(out, at, text, mpdu, rows);
    }
    put_value(out, at, text, mpdu, rows, i, WIDTH)
}

// Home id, source and destination, by the rows of a header.
pub fn put_nodes(out: &mut Buffer, at: usize, text: &[u8], mpdu: &[u8], rows: &[u64]) -> usize
    requires { verdict text.now ≡ Ok tt }
{
    let home = find_row(text, rows, b"HomeID");
    let source = find_row(text, rows, b"SourceNodeID");
    let mut place = put_value(out, at, text, mpdu, rows, home, HOME);
    place = put_value(out, place, text, mpdu, rows, source, SOURCE);
    put_destination(out, place, text, mpdu, rows)
}

// The same columns where nothing is known.
pub fn put_no_nodes(out: &mut Buffer, at: usize) -> usize {
    put(out, at, b"           -          -               -")
}
