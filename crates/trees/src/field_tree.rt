// The fields of a header as a tree: name, bits and value of each, and its letter where a picture of the bits follows.
ghost use Rattle.std.specs.Prelude.{◌≤◌};

use crate::node_lines::{MOST_NODES, put_first};
use crate::ruler::letter;
use frame_text::{ParamType, read_type};
use header_nodes::row_nodes;
use header_rows::{BITS, NUMBER, PARENT, ROW_WIDTH, START, SYMBOL, VALUE};
use readers::cells::{cell, depth_of};
use readers::line_fields::field_of;
use readers::lines::find_line;
use std::num::{wrapping_add_u64, wrapping_sub_u64};
use writer::{
    Buffer, put, put_byte, put_left, put_marked, put_number, put_number_left, put_spaces,
};

// How many bytes the column of names has.
const NAMES: usize = 32;

// A name, further right the deeper its row is.
pub fn put_deep(out: &mut Buffer, at: usize, depth: usize, name: &[u8]) -> usize
    requires { depth ≤ 8 }
{
    let place = put_spaces(out, at, depth * 2);
    put_left(out, place, name, NAMES - depth * 2)
}

// From a place to the one before another.
pub fn put_range(out: &mut Buffer, at: usize, start: u64, end: u64) -> usize {
    let mut place = put_marked(out, at, b"", start, 5);
    place = put(out, place, b"-");
    put_number_left(out, place, wrapping_sub_u64(end, 1), 6)
}

// The number behind the symbol of row i, if it has one.
fn put_number_of(out: &mut Buffer, at: usize, rows: &[u64], i: usize) -> usize {
    if cell(rows, ROW_WIDTH, i, SYMBOL) == 0 {
        return put(out, at, b"\n");
    }
    let mut place = put(out, at, b"  (");
    place = put_number(out, place, cell(rows, ROW_WIDTH, i, VALUE));
    put(out, place, b")\n")
}

// The letter of row i in the picture, a blank where there is none.
fn mark(i: usize, picture: bool) -> u8 {
    if picture { letter(i) } else { b' ' }
}

// Letter, name and bits of row i.
fn put_head(
    out: &mut Buffer,
    at: usize,
    name: &[u8],
    rows: &[u64],
    i: usize,
    picture: bool,
) -> usize {
    let start = cell(rows, ROW_WIDTH, i, START);
    let end = wrapping_add_u64(start, cell(rows, ROW_WIDTH, i, BITS));
    let mut place = put(out, at, b"  ");
    place = put_byte(out, place, mark(i, picture));
    place = put_byte(out, place, b' ');
    place = put_deep(out, place, depth_of(rows, ROW_WIDTH, i, PARENT), name);
    put_range(out, place, start, end)
}

fn is_bitmask(kind: &[u8]) -> bool {
    matches!(read_type(kind), Some(ParamType::Bitmask))
}

// The nodes of row i, whose P line has this type, if they are a mask.
fn put_mask(
    out: &mut Buffer,
    at: usize,
    kind: &[u8],
    text: &[u8],
    mpdu: &[u8],
    rows: &[u64],
    i: usize,
) -> usize {
    if !is_bitmask(kind) {
        return at;
    }
    let mut nodes = [0u16; MOST_NODES];
    match row_nodes(text, mpdu, rows, i, &mut nodes) {
        Ok(n) => put_first(out, at, &nodes, n),
        Err(_) => at,
    }
}

// The lines of row i, by its P line.
pub fn put_field(
    out: &mut Buffer,
    at: usize,
    text: &[u8],
    mpdu: &[u8],
    rows: &[u64],
    i: usize,
    picture: bool,
) -> usize {
    let line = find_line(text, b'P', cell(rows, ROW_WIDTH, i, NUMBER) as usize);
    let mut place = put_head(out, at, field_of(line, 5), rows, i, picture);
    place = shown_rows::put_field(out, place, text, mpdu, rows, i);
    place = put_number_of(out, place, rows, i);
    put_mask(out, place, field_of(line, 4), text, mpdu, rows, i)
}

// The lines of the n rows of a header.
pub fn put_fields(
    out: &mut Buffer,
    at: usize,
    text: &[u8],
    mpdu: &[u8],
    rows: &[u64],
    n: usize,
    picture: bool,
) -> usize {
    let mut place = at;
    for i in 0..n {
        place = put_field(out, place, text, mpdu, rows, i, picture);
    }
    place
}
