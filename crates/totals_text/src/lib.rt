// The totals of a capture as a page of lines: TO6 of docs/RULES.md.
#![tactic(auto, using(crate::proofs::Laws::laws))]

ghost use Rattle.std.specs.Prelude.{cond, ◌≡◌, [], ◌*◌, ◌≤◌, eqb, length, take};
ghost use Rattle.buffer.specs.Buffer.{Writes};
ghost use Rattle.numerals.specs.Numerals.{room};
ghost use Rattle.totals.specs.Totals.{size, wrong_at};
ghost use Rattle.totals_text.specs.Text.{item, key_line, key_lines, refused_line, sum_lines, refused_lines, text_of};
ghost use Rattle.totals_text.specs.Steps.{Appends};

use buffer::put;
use numerals::{ROOM, decimal};
use refusal::Refusal;
use totals::{BEAMS, BYTES, RATE_COUNT, REFUSED, REPEATS, TOTALS, WRONG};

// Between the numbers of a line, and behind the last.
const SPACE: u8 = 32;

const END: u8 = 10;

// Writes bytes at a place of the buffer, if they end inside it; answers the place behind.
fn append(buffer: &mut [u8], at: usize, bytes: &[u8]) -> usize
    requires { (at ≤ 400000) × (length bytes.now ≤ room) }
    ensures { Appends room bytes.now buffer.old at result buffer.new }
{
    let end = at + bytes.len();
    if buffer.len() < end {
        return end;
    }
    put(buffer, at, bytes);
    end
}

// Writes a number in decimal and the byte behind it.
fn append_number(buffer: &mut [u8], at: usize, n: u64, stop: u8) -> usize
    requires { at ≤ 350000 }
    ensures { Appends (2 * room) (item [] n stop) buffer.old at result buffer.new }
{
    let mut digits = [0u8; ROOM];
    let start = decimal(n, &mut digits);
    let next = append(buffer, at, &digits[start..]);
    let end = [stop];
    append(buffer, next, &end)
}

// Writes a word, a number and the byte behind it.
fn append_item(buffer: &mut [u8], at: usize, word: &[u8], n: u64, stop: u8) -> usize
    requires { (at ≤ 300000) × (length word.now ≤ room) }
    ensures { Appends (3 * room) (item word.now n stop) buffer.old at result buffer.new }
{
    let next = append(buffer, at, word);
    append_number(buffer, next, n, stop)
}

// Writes the line of the count n at a place of the totals, if there is one.
fn append_key(buffer: &mut [u8], at: usize, place: usize, n: u64) -> usize
    requires { at ≤ 200000 }
    ensures { Appends (7 * room) (cond (eqb n 0) [] (key_line place n)) buffer.old at result buffer.new }
{
    if n == 0 {
        return at;
    }
    let key = append_item(buffer, at, b"key ", (place / RATE_COUNT) as u64, SPACE);
    let rate = append_number(buffer, key, (place % RATE_COUNT) as u64, SPACE);
    append_number(buffer, rate, n, END)
}

// Writes the lines of the counts by key and rate, from the buffer's start on.
fn append_keys(totals: &[u64], buffer: &mut [u8]) -> usize
    requires { length totals.now ≡ size }
    ensures { Appends 157696 (key_lines 0 (take wrong_at totals.now)) buffer.old 0 result buffer.new }
{
    let mut at: usize = 0;
    for i in 0..WRONG {
        at = append_key(buffer, at, i, totals[i]);
    }
    at
}

// Writes the lines of the wrong checksums, the beams, their repetitions and the bytes.
fn append_sums(totals: &[u64], buffer: &mut [u8], at: usize) -> usize
    requires { (length totals.now ≡ size) × (at ≤ 200000) }
    ensures { Appends (12 * room) (sum_lines totals.now) buffer.old at result buffer.new }
{
    let wrong = append_item(buffer, at, b"wrong ", totals[WRONG], END);
    let beams = append_item(buffer, wrong, b"beams ", totals[BEAMS], END);
    let repeats = append_item(buffer, beams, b"repeats ", totals[REPEATS], END);
    append_item(buffer, repeats, b"bytes ", totals[BYTES], END)
}

// Writes the line of a refusal's number.
fn append_refusal(buffer: &mut [u8], at: usize, number: u64, n: u64) -> usize
    requires { at ≤ 250000 }
    ensures { Appends (5 * room) (refused_line number n) buffer.old at result buffer.new }
{
    let next = append_item(buffer, at, b"refused ", number, SPACE);
    append_number(buffer, next, n, END)
}

// Writes the lines of what was refused.
fn append_refused(totals: &[u64], buffer: &mut [u8], at: usize) -> usize
    requires { (length totals.now ≡ size) × (at ≤ 210000) }
    ensures { Appends (15 * room) (refused_lines totals.now) buffer.old at result buffer.new }
{
    let short = append_refusal(buffer, at, 5, totals[REFUSED + 5]);
    let unbased = append_refusal(buffer, short, 6, totals[REFUSED + 6]);
    append_refusal(buffer, unbased, 7, totals[REFUSED + 7])
}

// Writes all lines from the buffer's start on, if it has room for them; answers how many bytes they have.
fn append_totals(totals: &[u64], buffer: &mut [u8]) -> usize
    requires { length totals.now ≡ size }
    ensures { Appends 158290 (text_of totals.now) buffer.old 0 result buffer.new }
{
    let keys = append_keys(totals, buffer);
    let sums = append_sums(totals, buffer, keys);
    append_refused(totals, buffer, sums)
}

// Writes them if the buffer has room for all of them, which are counted first; else refuses by 12.
fn write_totals(totals: &[u64], buffer: &mut [u8]) -> Result<usize, Refusal>
    requires { length totals.now ≡ size }
    ensures { Writes (text_of totals.now) buffer.old result buffer.new }
{
    let mut none = [0u8; 0];
    let length = append_totals(totals, &mut none);
    if buffer.len() < length {
        return Err(Refusal::MoreBytes(length));
    }
    append_totals(totals, buffer);
    Ok(length)
}

// The text of totals into the buffer; answers its length, or refusal 12. A refusal writes nothing, an answer nothing behind the text.
pub fn print_totals(totals: &[u64; TOTALS], buffer: &mut [u8]) -> Result<usize, Refusal>
    ensures { Writes (text_of totals.now) buffer.old result buffer.new }
{
    write_totals(&totals[..], buffer)
}
