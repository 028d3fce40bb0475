// The parts of an answer. Answers wait in the writer's buffer, of which `used` bytes are taken.
#![tactic(auto, using(crate::proofs::Laws::laws))]

pub mod table;

use writer::{Buffer, put, put_byte, put_hex, put_number};

// A number behind a space.
pub fn put_value(out: &mut Buffer, used: usize, x: u64) -> usize {
    let n = put_byte(out, used, b' ');
    put_number(out, n, x)
}

// A number behind a word.
pub fn put_named(out: &mut Buffer, used: usize, word: &[u8], x: u64) -> usize {
    let n = put(out, used, word);
    put_value(out, n, x)
}

// Numbers, each behind a space.
pub fn put_numbers(out: &mut Buffer, used: usize, row: &[u64]) -> usize {
    let mut n = used;
    for x in row {
        n = put_value(out, n, *x);
    }
    n
}

// Bytes in hex, or `-` for none.
pub fn put_bytes(out: &mut Buffer, used: usize, bytes: &[u8]) -> usize {
    if bytes.len() == 0 {
        return put_byte(out, used, b'-');
    }
    put_hex(out, used, bytes)
}

// A refusal: its number, and what it carries.
pub fn put_refusal(out: &mut Buffer, used: usize, number: u64, carried: u64) -> usize {
    let n = put_named(out, used, b"refused", number);
    put_value(out, n, carried)
}
