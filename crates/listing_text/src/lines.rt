// Lines of a listing, written.
ghost use Rattle.std.specs.Prelude.{◌≡◌, ◌+◌, ◌*◌, ◌≤◌, ◌<◌, length};
ghost use Rattle.rows.specs.Rows.{put};
ghost use Rattle.listing_text.specs.Listing.{row_width, closed};
ghost use Rattle.listing_text.specs.Steps.{PutsNumber, stop_before, Writes, rows_in, Puts, PutsAll};

use buffer::put;
use numerals::{ROOM, decimal};

// The numbers of a row: those of H18 (docs/RULES.md).
pub const ROW_WIDTH: usize = 7;

// The longest line: the numbers of a row, twenty digits each, and a byte behind each.
pub const LONGEST: usize = ROW_WIDTH * 21;

// Writes bytes at a place of the buffer, if it has room there; else writes nothing.
fn put_bytes(buffer: &mut [u8], at: usize, bytes: &[u8])
    ensures { buffer.new ≡ put buffer.old at bytes.now }
{
    if buffer.len() < bytes.len() {
        return;
    }
    if buffer.len() - bytes.len() < at {
        return;
    }
    put(buffer, at, bytes);
}

// Writes the digits of n at a place of the line, and a byte behind them; answers the place behind.
fn put_number(n: u64, stop: u8, line: &mut [u8], at: usize) -> usize
    requires { at + 21 ≤ length line.old }
    ensures { PutsNumber n stop line.old at result line.new }
{
    let mut digits = [0u8; ROOM];
    let start = decimal(n, &mut digits);
    put_bytes(line, at, &digits[start..]);
    let end = at + (ROOM - start);
    line[end] = stop;
    end + 1
}

// The byte behind a number that so many numbers follow.
fn stop_before(more: usize) -> u8
    ensures { result ≡ stop_before more }
{
    if more == 0 { 10 } else { 9 }
}

// Writes the line of these numbers in front, and answers how many bytes it has.
pub fn write_line(numbers: &[u64], line: &mut [u8]) -> usize
    requires { (length numbers.now ≤ row_width) × (length line.old ≡ row_width * 21) }
    ensures { Writes numbers.now line.old result line.new }
{
    let mut at = 0;
    for (i, n) in numbers.iter().enumerate() {
        at = put_number(*n, stop_before(numbers.len() - (i + 1)), line, at);
    }
    at
}

// Writes the line of these numbers at a place of the buffer, if it has room there; answers the place behind.
fn put_line(numbers: &[u64], buffer: &mut [u8], at: usize) -> usize
    requires { (length numbers.now ≤ row_width) × (at < 65536) }
    ensures { Puts numbers.now buffer.old at result buffer.new }
{
    let mut line = [0u8; LONGEST];
    let n = write_line(numbers, &mut line);
    put_bytes(buffer, at, &line[..n]);
    at + n
}

// Writes the listing of the first rows of a table and of a header's number, each line if the buffer has room for it; answers how many bytes it has.
pub fn put_lines(rows: &[u64], count: usize, number: u64, buffer: &mut [u8]) -> usize
    requires { (count ≤ 128) × (count * row_width ≤ length rows.now) }
    ensures { PutsAll (closed (rows_in count rows.now) number) buffer.old result buffer.new }
{
    let mut at = 0;
    for k in 0..count {
        let a = k * ROW_WIDTH;
        let e = a + ROW_WIDTH;
        at = put_line(&rows[a..e], buffer, at);
    }
    let last = [number];
    put_line(&last, buffer, at)
}
