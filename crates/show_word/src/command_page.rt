// A command whole: its name and its parameters as a tree, or its bytes.
use output::paint::{Hue, put_painted};
use readers::cells::part;
use std::num::wrapping_sub_usize;
use trees::hex_dump::{put_bytes, put_dump};
use trees::param_tree::put_params;
use writer::{Buffer, put};

// Bytes that are too few for a command.
pub fn put_short(out: &mut Buffer, at: usize, bytes: &[u8]) -> usize {
    if bytes.is_empty() {
        return put(out, at, b"\nno command\n");
    }
    let place = put(out, at, b"\nno command, but one byte\n");
    put_dump(out, place, bytes)
}

// A command that no line of the index names.
pub fn put_unknown(out: &mut Buffer, at: usize, bytes: &[u8]) -> usize {
    let place = put(out, at, b"\na command that the index does not name\n");
    put_dump(out, place, bytes)
}

pub fn put_title(out: &mut Buffer, at: usize, name: &[u8], colour: bool) -> usize {
    let mut place = put(out, at, b"\n");
    place = put_painted(out, place, name, 0, Hue::Name, colour);
    put(out, place, b"\n")
}

// What the parameters leave.
fn put_remainder(out: &mut Buffer, at: usize, bytes: &[u8]) -> usize {
    if bytes.is_empty() {
        return at;
    }
    let mut place = put(out, at, b"    remainder");
    place = put_bytes(out, place, bytes);
    put(out, place, b"\n")
}

// The n rows of a command, and its remainder from a place on.
pub fn put_command(
    out: &mut Buffer,
    at: usize,
    text: &[u8],
    payload: &[u8],
    rows: &[u64],
    n: usize,
    remainder: usize,
) -> usize {
    let place = put_params(out, at, text, payload, rows, n);
    let count = wrapping_sub_usize(payload.len(), remainder);
    put_remainder(out, place, part(payload, remainder, count))
}
