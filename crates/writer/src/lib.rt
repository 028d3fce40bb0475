// Text on its way to standard output. It gathers in a lent buffer, `at` bytes of it so far, and is written whenever the buffer is full: no call of the
// system for a byte. Each function returns how many bytes have gathered after it. A number past the buffer's length counts as a full buffer, so each
// of them takes any. Numbers are spelled by `numerals`.
#![tactic(auto)]

use numerals::{ROOM, decimal, glyph};

// The descriptors of standard output and standard error.
pub const STDOUT_FILENO: i32 = 1;

pub const STDERR_FILENO: i32 = 2;

// Where text gathers.
pub type Buffer = [u8; 4096];

// The digit for ten, as bytes are printed.
const SMALL: u8 = b'a';

// Writes the first n bytes, or all where there are fewer. What cannot be written is lost: there is nobody to tell.
fn write_first(bytes: &[u8], n: usize) {
    io::write_all(STDOUT_FILENO, &bytes[..n.min(bytes.len())]);
}

// Writes what has gathered. The buffer is as good as empty then.
pub fn flush(out: &Buffer, at: usize) {
    write_first(out, at);
}

pub fn put_byte(out: &mut Buffer, at: usize, byte: u8) -> usize {
    if at < out.len() {
        out[at] = byte;
        return at + 1;
    }
    flush(out, at);
    out[0] = byte;
    1
}

pub fn put(out: &mut Buffer, at: usize, bytes: &[u8]) -> usize {
    let mut place = at;
    for byte in bytes {
        place = put_byte(out, place, *byte);
    }
    place
}

pub fn put_spaces(out: &mut Buffer, at: usize, n: usize) -> usize {
    let mut place = at;
    for _ in 0..n {
        place = put_byte(out, place, b' ');
    }
    place
}

// How many spaces bring `taken` bytes to a width.
fn padding(width: usize, taken: usize) -> usize {
    width.saturating_sub(taken)
}

// Bytes at the right of a column.
pub fn put_right(out: &mut Buffer, at: usize, bytes: &[u8], width: usize) -> usize {
    let place = put_spaces(out, at, padding(width, bytes.len()));
    put(out, place, bytes)
}

// Bytes at the left of a column.
pub fn put_left(out: &mut Buffer, at: usize, bytes: &[u8], width: usize) -> usize {
    let place = put(out, at, bytes);
    put_spaces(out, place, padding(width, bytes.len()))
}

// A number in decimal.
pub fn put_number(out: &mut Buffer, at: usize, n: u64) -> usize {
    let mut digits = [0u8; ROOM];
    let start = decimal(n, &mut digits);
    put(out, at, &digits[start..])
}

// A number at the left of a column.
pub fn put_number_left(out: &mut Buffer, at: usize, n: u64, width: usize) -> usize {
    let mut digits = [0u8; ROOM];
    let start = decimal(n, &mut digits);
    put_left(out, at, &digits[start..], width)
}

// A number at the right of a column, with a mark right before its digits.
pub fn put_marked(out: &mut Buffer, at: usize, mark: &[u8], n: u64, width: usize) -> usize {
    let mut digits = [0u8; ROOM];
    let start = decimal(n, &mut digits);
    let mut place = put_spaces(out, at, padding(padding(width, mark.len()), ROOM - start));
    place = put(out, place, mark);
    put(out, place, &digits[start..])
}

// Writes a number in decimal at once: nothing may have gathered before it.
pub fn print_number(fd: i32, n: u64) {
    let mut digits = [0u8; ROOM];
    let start = decimal(n, &mut digits);
    io::write_all(fd, &digits[start..]);
}

fn put_pair(out: &mut Buffer, at: usize, byte: u8) -> usize {
    let place = put_byte(out, at, glyph(SMALL, byte / 16));
    put_byte(out, place, glyph(SMALL, byte % 16))
}

// The two digits of each byte.
pub fn put_hex(out: &mut Buffer, at: usize, bytes: &[u8]) -> usize {
    let mut place = at;
    for byte in bytes {
        place = put_pair(out, place, *byte);
    }
    place
}
