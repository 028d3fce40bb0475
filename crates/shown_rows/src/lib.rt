// Values of rows of a table as people read them, on their way to standard output. A row that is not there, or a text that isn't accepted, has none.
#![tactic(auto, using(crate::proofs::Laws::laws))]

ghost use Rattle.std.specs.Prelude.{◌≡◌, Ok};
ghost use Rattle.frame_text.specs.Rules.{verdict};

use command_rows::read_row;
use command_text::check_command_text;
use frame_text::check_frame_text;
use refusal::MOST_FRAME;
use writer::{Buffer, put};

// Room for every value: 2,048 bytes of ascii, each of which may become three.
pub const MOST: usize = 6144;

// The first n bytes, if so many are there.
fn put_first(out: &mut Buffer, at: usize, value: &[u8], n: usize) -> usize {
    match value.get(..n) {
        Some(shown) => put(out, at, shown),
        None => at,
    }
}

// The value of row i of a header, by an accepted text, and how many bytes it has.
pub fn show_field(text: &[u8], mpdu: &[u8], rows: &[u64], i: usize, value: &mut [u8]) -> usize
    requires { verdict text.now ≡ Ok tt }
{
    if MOST_FRAME < mpdu.len() {
        return 0;
    }
    if rows.len() / header_rows::ROW_WIDTH <= i {
        return 0;
    }
    header_value::row_value(text, mpdu, rows, i, value).unwrap_or(0)
}

// The same by any text.
fn show_checked(text: &[u8], mpdu: &[u8], rows: &[u64], i: usize, value: &mut [u8]) -> usize {
    match check_frame_text(text) {
        Ok(()) => show_field(text, mpdu, rows, i, value),
        Err(_) => 0,
    }
}

// The value of row i of a header.
pub fn put_field(
    out: &mut Buffer,
    at: usize,
    text: &[u8],
    mpdu: &[u8],
    rows: &[u64],
    i: usize,
) -> usize {
    let mut value = [0u8; MOST];
    let n = show_checked(text, mpdu, rows, i, &mut value);
    put_first(out, at, &value, n)
}

// The value of row i of a command, and how many bytes it has.
fn show_param(text: &[u8], payload: &[u8], rows: &[u64], i: usize, value: &mut [u8]) -> usize {
    if MOST_FRAME < payload.len() {
        return 0;
    }
    if rows.len() / command_rows::ROW_WIDTH <= i {
        return 0;
    }
    match check_command_text(text) {
        Ok(()) => command_value::row_value(text, payload, read_row(rows, i), value).unwrap_or(0),
        Err(_) => 0,
    }
}

// The value of row i of a command.
pub fn put_param(
    out: &mut Buffer,
    at: usize,
    text: &[u8],
    payload: &[u8],
    rows: &[u64],
    i: usize,
) -> usize {
    let mut value = [0u8; MOST];
    let n = show_param(text, payload, rows, i, &mut value);
    put_first(out, at, &value, n)
}
