// The requests on every frame of a payload, by the flat columns and by the slice of frame records.
ghost use Rattle.std.specs.Prelude.{◌≡◌, ◌+◌, ◌*◌, ◌≤◌, length};
ghost use Rattle.pti.specs.Payload.{row_width};
ghost use Rattle.frame_requests.specs.Frames.{named_of, by_of, Asks};

use crate::frame_table::frame_table;
use answer::table::{MOST_ROWS, SHORT, put_touched_short};
use answer::{put_numbers, put_refusal, put_value};
use libtap::frames::tap_parse_payload;
use pti::payload::{HASH, NODE, POWER, RECORD, ROW_WIDTH};
use readers::line_fields::field_of;
use request::{read_bytes, read_leading, read_two};
use std::num::wrapping_add_usize;
use writer::{Buffer, put, put_number};

// The numbers of the most rows that a request may ask for.
const NUMBERS: usize = 16384 * ROW_WIDTH;

// What a request says of its bytes: the firmware that wrote them, and whether beams are a family of their own.
#[derive(Clone, Copy)]
pub struct Capture {
    pub firmware: usize,
    pub family: bool,
}

// `FIRMWARE READING`. The reading is 0 or 1.
fn read_named(words: &[u8]) -> Option<(Capture, usize)>
    ensures { result ≡ named_of words.now }
{
    let (firmware, reading, at) = read_two(words)?;
    if 1 < reading {
        return None;
    }
    Some((
        Capture {
            firmware: firmware as usize,
            family: reading == 1,
        },
        at,
    ))
}

// The same, if the word asks for them; else firmware 2 and reading 0.
pub fn read_by(words: &[u8], named: bool) -> Option<(Capture, usize)>
    ensures { result ≡ by_of named words.now }
{
    if named {
        return read_named(words);
    }
    Some((
        Capture {
            firmware: 2,
            family: false,
        },
        0,
    ))
}

// `CAP PAYLOAD`
fn read_asked(words: &[u8], bytes: &mut [u8]) -> Option<(usize, usize)>
    ensures { Asks bytes.new result }
{
    let (cap, at) = read_leading(words)?;
    if MOST_ROWS < cap {
        return None;
    }
    let n = read_bytes(&words[at..], bytes)?;
    Some((cap as usize * ROW_WIDTH, n))
}

// `frames CAP PAYLOAD` and `framesby FIRMWARE READING CAP PAYLOAD`; with the other word by the slice of frame records
pub fn frames(
    words: &[u8],
    word: usize,
    named: bool,
    bytes: &mut [u8],
    out: &mut Buffer,
    used: usize,
) -> Option<usize> {
    let (capture, at) = read_by(words, named)?;
    let (numbers, n) = read_asked(&words[at..], bytes)?;
    let mut rows = [SHORT; NUMBERS];
    Some(answer_frames(
        &bytes[..n],
        capture,
        word,
        named,
        &mut rows[..numbers],
        out,
        used,
    ))
}

fn answer_frames(
    payload: &[u8],
    capture: Capture,
    word: usize,
    named: bool,
    rows: &mut [u16],
    out: &mut Buffer,
    used: usize,
) -> usize {
    let frames = tap_parse_payload(payload, capture.firmware, capture.family, rows);
    if frames.refusal != 0 {
        let n = put_refusal(out, used, frames.refusal, frames.value);
        return put_touched_short(out, n, rows);
    }
    let count = frames.value as usize;
    if word == FRAMETABLE {
        let filled = frame_table(rows, count);
        return put_frames(out, used, word, named, filled, rows);
    }
    put_frames(out, used, word, named, count, rows)
}

// The words of the answers.
pub const FRAMES: usize = 0;

pub const FRAMETABLE: usize = 1;

pub const FRAME: usize = 2;

// A word of an answer: piece k, and its ending where the request named a firmware.
pub fn put_word(out: &mut Buffer, used: usize, k: usize, named: bool) -> usize {
    let words: &[u8] = b"frames\tframetable\tframe\tframesby\tframetableby\trecordby";
    if named {
        return put(out, used, field_of(words, wrapping_add_usize(k, 3)));
    }
    put(out, used, field_of(words, k))
}

// The rows of an answer, of which there are so many in a table, and whether the table is untouched past them.
fn put_frames(
    out: &mut Buffer,
    used: usize,
    word: usize,
    named: bool,
    count: usize,
    table: &[u16],
) -> usize
    requires { count * row_width ≤ length table.now }
{
    let mut n = put_word(out, used, word, named);
    n = put_value(out, n, count as u64);
    n = put_rows(out, n, named, table, count);
    let past = count * ROW_WIDTH;
    put_touched_short(out, n, &table[past..])
}

fn put_rows(out: &mut Buffer, used: usize, named: bool, rows: &[u16], count: usize) -> usize
    requires { count * row_width ≤ length rows.now }
{
    let mut n = used;
    for i in 0..count {
        let row = widened(rows, i);
        n = put_row(out, n, named, &row);
    }
    n
}

fn wide(number: u16) -> u64 {
    number as u64
}

// Row i.
fn widened(rows: &[u16], i: usize) -> [u64; ROW_WIDTH]
    requires { i * row_width + row_width ≤ length rows.now }
{
    let mut row = [0u64; ROW_WIDTH];
    for k in 0..ROW_WIDTH {
        row[k] = wide(rows[i * ROW_WIDTH + k]);
    }
    row
}

// A row: eight numbers, and where its record stands and whom a beam wakes if the request named a firmware.
fn put_row(out: &mut Buffer, used: usize, named: bool, row: &[u64]) -> usize
    requires { row_width ≤ length row.now }
{
    let mut n = put_frame(out, used, row);
    if named {
        n = put_numbers(out, n, &row[RECORD..NODE]);
        return put_target(out, n, row[NODE], row[HASH], row[POWER]);
    }
    n
}

// A number that is told as one more, or `-` for none.
fn put_told(out: &mut Buffer, used: usize, told: u64) -> usize {
    if told == 0 {
        return put(out, used, b" -");
    }
    put_value(out, used, told - 1)
}

// Whom a beam wakes.
pub fn put_target(out: &mut Buffer, used: usize, node: u64, hash: u64, power: u64) -> usize {
    let mut n = put_told(out, used, node);
    n = put_told(out, n, hash);
    put_told(out, n, power)
}

// The eight numbers of a frame.
pub fn put_frame(out: &mut Buffer, used: usize, row: &[u64]) -> usize
    requires { 8 ≤ length row.now }
{
    let mut n = put_numbers(out, used, &row[..4]);
    n = put_rssi(out, n, row[4]);
    n = put_beams(out, n, row[5]);
    put_numbers(out, n, &row[6..8])
}

// How far an RSSI is below 0, by its byte; 0 where it isn't, or where the number is no byte.
fn below_zero(byte: u64) -> u64 {
    if byte < 128 {
        return 0;
    }
    if 255 < byte {
        return 0;
    }
    256 - byte
}

// An RSSI by its byte, as a signed number.
fn put_rssi(out: &mut Buffer, used: usize, byte: u64) -> usize {
    let below = below_zero(byte);
    if below == 0 {
        return put_value(out, used, byte);
    }
    let n = put(out, used, b" -");
    put_number(out, n, below)
}

// A beam count, or `-` for none.
fn put_beams(out: &mut Buffer, used: usize, beams: u64) -> usize {
    if beams == 0 {
        return put(out, used, b" -");
    }
    put_value(out, used, beams)
}
