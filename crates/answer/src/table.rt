// A table as a call is lent it: filled before the call, and looked at after it.
ghost use Rattle.std.specs.Prelude.{◌≡◌, ◌≤◌, length};
ghost use Rattle.answer.specs.Table.{fresh, is_fresh, Holds};

use crate::{put_bytes, put_refusal};
use writer::{Buffer, put};

// The most rows that a request may ask for.
pub const MOST_ROWS: u64 = 16384;

// What every number of a table is before a call; of a narrower column, its low bits.
pub const PATTERN: u64 = 0xA5A5A5A5A5A5A5A5;

pub fn fill(table: &mut [u64])
    ensures { table.new ≡ fresh (length table.old) }
{
    for i in 0..table.len() {
        table[i] = PATTERN;
    }
}

// Whether nothing has been written to a part of a table.
fn is_fresh(table: &[u64]) -> bool
    ensures { result ≡ is_fresh 0xA5A5A5A5A5A5A5A5 table.now }
{
    for x in table {
        if *x != PATTERN {
            return false;
        }
    }
    true
}

// Says so if something has been written to a part of a table that nothing may write to.
pub fn put_touched(out: &mut Buffer, used: usize, table: &[u64]) -> usize {
    if is_fresh(table) {
        return used;
    }
    put(out, used, b" TOUCHED")
}

// What every number of a table of 16-bit numbers is before a call.
pub const SHORT: u16 = 0xA5A5;

// Whether nothing has been written to a part of such a table.
fn is_fresh_short(table: &[u16]) -> bool
    ensures { result ≡ is_fresh 0xA5A5 table.now }
{
    for x in table {
        if *x != SHORT {
            return false;
        }
    }
    true
}

// Says so if something has been written to a part of such a table that nothing may write to.
pub fn put_touched_short(out: &mut Buffer, used: usize, table: &[u16]) -> usize {
    if is_fresh_short(table) {
        return used;
    }
    put(out, used, b" TOUCHED")
}

// The most bytes that a request may ask for as a buffer.
pub const MOST_BYTES: u64 = 196608;

// What every byte of a buffer is before a call.
pub const BYTE: u8 = 0xA5;

// Whether nothing has been written to a part of a buffer.
fn is_fresh_bytes(bytes: &[u8]) -> bool
    ensures { result ≡ is_fresh 0xA5 bytes.now }
{
    for x in bytes {
        if *x != BYTE {
            return false;
        }
    }
    true
}

// Says so if something has been written to a part of a buffer that nothing may write to.
pub fn put_touched_bytes(out: &mut Buffer, used: usize, bytes: &[u8]) -> usize {
    if is_fresh_bytes(bytes) {
        return used;
    }
    put(out, used, b" TOUCHED")
}

// A refusal, after which nothing may have been written to the table.
pub fn put_refused(
    out: &mut Buffer,
    used: usize,
    number: u64,
    carried: u64,
    table: &[u64],
) -> usize {
    let n = put_refusal(out, used, number, carried);
    put_touched(out, n, table)
}

// A word and a text, the first n bytes of a buffer, and whether the buffer is untouched past it.
fn put_text(out: &mut Buffer, used: usize, word: &[u8], buffer: &[u8], n: usize) -> usize
    requires { n ≤ length buffer.now }
{
    let m = put(out, used, word);
    let e = put_bytes(out, m, &buffer[..n]);
    put_touched_bytes(out, e, &buffer[n..])
}

// What a call that writes a text answers, a refusal's number and what it carries, or 0 and the text's length, and the buffer that it was lent.
pub fn put_written(
    out: &mut Buffer,
    used: usize,
    word: &[u8],
    refusal: u64,
    value: u64,
    buffer: &[u8],
) -> usize
    requires { Holds refusal value buffer.now }
{
    if refusal != 0 {
        let m = put_refusal(out, used, refusal, value);
        return put_touched_bytes(out, m, buffer);
    }
    put_text(out, used, word, buffer, value as usize)
}
