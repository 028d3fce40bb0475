// The parameters of a command as a tree: name, bytes and value of each.
use crate::field_tree::{put_deep, put_range};
use crate::node_lines::{MOST_NODES, put_first};
use command_nodes::row_nodes;
use command_rows::{END, KIND, LACKING, LINE, NUMBER, PARENT, ROW_WIDTH, START, VALUE, VALUED};
use command_text::{ParamType, read_type};
use readers::cells::{cell, depth_of};
use readers::line_fields::field_of;
use readers::lines::numbered_line;
use std::num::{wrapping_add_u64, wrapping_sub_u64};
use writer::{Buffer, put, put_number};

// Kinds of rows.
const BIT: u64 = 1;

const REPETITION: u64 = 2;

// Which field of a line of this kind is its name.
fn name_field(kind: u8) -> usize {
    match kind {
        b'Q' | b'S' | b'U' => 3,
        b'T' | b'K' => 2,
        _ => 1,
    }
}

// The name in line n of a command text.
fn name_at(text: &[u8], n: u64) -> &[u8] {
    let line = numbered_line(text, n);
    match line.first() {
        Some(kind) => field_of(line, name_field(*kind)),
        None => line,
    }
}

// Name and bytes of row i.
fn put_head(out: &mut Buffer, at: usize, text: &[u8], rows: &[u64], i: usize) -> usize {
    let name = name_at(text, cell(rows, ROW_WIDTH, i, LINE));
    let mut place = put(out, at, b"    ");
    place = put_deep(out, place, depth_of(rows, ROW_WIDTH, i, PARENT), name);
    put_range(
        out,
        place,
        cell(rows, ROW_WIDTH, i, START),
        cell(rows, ROW_WIDTH, i, END),
    )
}

// The number of a repetition, from 1.
fn put_repetition(out: &mut Buffer, at: usize, number: u64) -> usize {
    let place = put(out, at, b"number ");
    put_number(out, place, wrapping_add_u64(number, 1))
}

// How many bytes row i has.
fn bytes_of(rows: &[u64], i: usize) -> u64 {
    wrapping_sub_u64(
        cell(rows, ROW_WIDTH, i, END),
        cell(rows, ROW_WIDTH, i, START),
    )
}

// Which word: for one, or for more.
fn many(n: u64) -> usize {
    if n == 1 { 0 } else { 1 }
}

// The number that row i is, if it has a value.
fn put_value(out: &mut Buffer, at: usize, rows: &[u64], i: usize) -> usize {
    if cell(rows, ROW_WIDTH, i, VALUED) == 0 {
        return at;
    }
    let place = put(out, at, b" = ");
    put_number(out, place, cell(rows, ROW_WIDTH, i, VALUE))
}

// How many bytes a row has of those that it wanted, if some are not there.
fn put_cut(out: &mut Buffer, at: usize, taken: u64, lacking: u64) -> usize {
    if lacking == 0 {
        return at;
    }
    let words: &[u8] = b" byte of \t bytes of \t: cut";
    let mut place = put(out, at, b"  ");
    place = put_number(out, place, taken);
    place = put(out, place, field_of(words, many(taken)));
    place = put_number(out, place, wrapping_add_u64(taken, lacking));
    put(out, place, field_of(words, 2))
}

// What row i says.
fn put_said(
    out: &mut Buffer,
    at: usize,
    text: &[u8],
    payload: &[u8],
    rows: &[u64],
    i: usize,
) -> usize {
    let kind = cell(rows, ROW_WIDTH, i, KIND);
    if kind == REPETITION {
        return put_repetition(out, at, cell(rows, ROW_WIDTH, i, NUMBER));
    }
    let mut place = shown_rows::put_param(out, at, text, payload, rows, i);
    if kind == BIT {
        return place;
    }
    place = put_value(out, place, rows, i);
    put_cut(
        out,
        place,
        bytes_of(rows, i),
        cell(rows, ROW_WIDTH, i, LACKING),
    )
}

// Is this the name of the type of a Q that may be a mask?
fn is_bitmask(kind: &[u8]) -> bool {
    matches!(read_type(kind), Some(ParamType::Bitmask))
}

// The nodes of row i, if they are a mask.
fn put_mask(
    out: &mut Buffer,
    at: usize,
    text: &[u8],
    payload: &[u8],
    rows: &[u64],
    i: usize,
) -> usize {
    let line = numbered_line(text, cell(rows, ROW_WIDTH, i, LINE));
    if !is_bitmask(field_of(line, 2)) {
        return at;
    }
    let mut nodes = [0u16; MOST_NODES];
    match row_nodes(text, payload, rows, i, &mut nodes) {
        Ok(n) => put_first(out, at, &nodes, n),
        Err(_) => at,
    }
}

// The lines of row i.
fn put_param(
    out: &mut Buffer,
    at: usize,
    text: &[u8],
    payload: &[u8],
    rows: &[u64],
    i: usize,
) -> usize {
    let mut place = put_head(out, at, text, rows, i);
    place = put_said(out, place, text, payload, rows, i);
    place = put(out, place, b"\n");
    put_mask(out, place, text, payload, rows, i)
}

// The lines of the n rows of a command.
pub fn put_params(
    out: &mut Buffer,
    at: usize,
    text: &[u8],
    payload: &[u8],
    rows: &[u64],
    n: usize,
) -> usize {
    let mut place = at;
    for i in 0..n {
        place = put_param(out, place, text, payload, rows, i);
    }
    place
}
