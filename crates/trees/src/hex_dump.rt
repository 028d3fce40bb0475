// Bytes in hexadecimal, sixteen on a line, with the place of the first before them.
use std::num::wrapping_add_u64;
use writer::{Buffer, put, put_byte, put_hex, put_marked};

// How many bytes a line has.
const LINE: usize = 16;

// Bytes parted by blanks.
pub fn put_bytes(out: &mut Buffer, at: usize, bytes: &[u8]) -> usize {
    let mut place = at;
    for byte in bytes {
        place = put_byte(out, place, b' ');
        place = put_hex(out, place, &[*byte]);
    }
    place
}

// The line of these bytes, the first of which stands at a place.
fn put_line(out: &mut Buffer, at: usize, bytes: &[u8], from: u64) -> usize {
    let mut place = put_marked(out, at, b"", from, 6);
    place = put(out, place, b" ");
    place = put_bytes(out, place, bytes);
    put(out, place, b"\n")
}

pub fn put_dump(out: &mut Buffer, at: usize, bytes: &[u8]) -> usize {
    let mut place = at;
    let mut from: u64 = 0;
    for line in bytes.chunks(LINE) {
        place = put_line(out, place, line, from);
        from = wrapping_add_u64(from, LINE as u64);
    }
    place
}
