// What a line of the table says of an MPDU: the header's name, who speaks to whom, the length, the checksum and the command's
// name; or by which refusal it has no name.
ghost use Rattle.std.specs.Prelude.{◌≡◌, Ok};
ghost use Rattle.frame_text.specs.Rules.{verdict};

use crate::node_columns::{put_no_nodes, put_nodes};
use command::{decode_params, offsets_by};
use command_part::command_part;
use command_rows::{LACKING, ROW_WIDTH};
use crc::check_crc;
use files::folder::find_command;
use header::{DecodedHeader, MOST_NUMBERS, decode_accepted};
use output::paint::{Hue, put_painted};
use output::refusals::put_short;
use readers::cells::{cell, part};
use readers::region::frame_code;
use refusal::Refusal;
use std::rt::{Env, Files};
use writer::{Buffer, put, put_hex, put_marked, put_spaces};

// How many bytes the column of names has.
const NAMES: usize = 26;

// The numbers of a command's rows, of which there are 1,024.
const PARAMS: usize = 1024 * ROW_WIDTH;

// Where and how an MPDU was heard.
#[derive(Clone, Copy)]
pub struct Radio {
    // Of the PTI, not an F line's code.
    pub region: u64,
    pub speed: u64,
}

// How a line is shown: in colour or not, by the command texts of which folder, told by its argument's number, and with offsets by position or not.
#[derive(Clone, Copy)]
pub struct Look {
    pub colour: bool,
    pub folder: usize,
    pub by_position: bool,
}

// A name in its column.
fn put_name(out: &mut Buffer, at: usize, name: &[u8], colour: bool) -> usize {
    let place = put(out, at, b"  ");
    put_painted(out, place, name, NAMES, Hue::Name, colour)
}

// Is the checksum right?
fn put_sum(out: &mut Buffer, at: usize, right: bool, colour: bool) -> usize {
    if right {
        return put(out, at, b"  ok");
    }
    put_painted(out, at, b"  wrong", 7, Hue::Wrong, colour)
}

// A command's name, by its line in the catalog; its first two bytes where there is none.
fn put_command_name(out: &mut Buffer, at: usize, line: &[u8], bytes: &[u8], colour: bool) -> usize {
    if line.is_empty() {
        return put_hex(out, at, bytes);
    }
    put_painted(out, at, readers::catalog::name(line), 0, Hue::Name, colour)
}

// Is one of the first n rows cut?
fn is_cut(rows: &[u64], n: usize) -> bool {
    (0..n).any(|i| cell(rows, ROW_WIDTH, i, LACKING) != 0)
}

// Does a command lack bytes by its text? One that is refused has no rows to tell by.
fn lacks(text: &[u8], payload: &[u8], by_position: bool) -> bool {
    let mut rows = [0u64; PARAMS];
    match decode_params(text, payload, offsets_by(by_position), &mut rows) {
        Ok(told) => is_cut(&rows, told.count),
        Err(_) => false,
    }
}

// The same by its line in the catalog.
fn lacks_by(rt: &(impl Env + Files), line: &[u8], payload: &[u8], look: Look) -> bool {
    let mut text = io::large_buffer();
    let Some(n) = find_command(rt, look.folder, readers::catalog::file(line), &mut text) else {
        return false;
    };
    lacks(&text[..n], payload, look.by_position)
}

// Marks a command with a field that is cut.
fn put_cut(
    rt: &(impl Env + Files),
    out: &mut Buffer,
    at: usize,
    line: &[u8],
    payload: &[u8],
    look: Look,
) -> usize {
    if line.is_empty() {
        return at;
    }
    if lacks_by(rt, line, payload, look) {
        return put_painted(out, at, b"  (cut)", 7, Hue::Wrong, look.colour);
    }
    at
}

// How many spaces part the checksum's column from the command's.
fn gap(right: bool) -> usize {
    if right { 5 } else { 2 }
}

// The name of the command in these bytes, if there is one, and whether a field of it is cut.
fn put_command(
    rt: &(impl Env + Files),
    out: &mut Buffer,
    at: usize,
    index: &[u8],
    bytes: &[u8],
    right: bool,
    look: Look,
) -> usize {
    if bytes.is_empty() {
        return at;
    }
    let mut place = put_spaces(out, at, gap(right));
    if bytes.len() < 2 {
        return put_hex(out, place, bytes);
    }
    let line = readers::catalog::find_command(index, bytes[0], bytes[1]);
    place = put_command_name(out, place, line, &bytes[..2], look.colour);
    put_cut(rt, out, place, line, bytes, look)
}

// Length and checksum.
fn put_size(out: &mut Buffer, at: usize, mpdu: &[u8], right: bool, colour: bool) -> usize {
    let place = put_marked(out, at, b"", mpdu.len() as u64, 5);
    put_sum(out, place, right, colour)
}

// The first n rows of a header's table; all rows where there are fewer.
fn first_rows(rows: &[u64], n: usize) -> &[u64] {
    rows.get(..n.saturating_mul(header_rows::ROW_WIDTH))
        .unwrap_or(rows)
}

// A header and its rows.
fn put_header(
    out: &mut Buffer,
    at: usize,
    text: &[u8],
    mpdu: &[u8],
    header: DecodedHeader,
    rows: &[u64],
    colour: bool,
) -> usize
    requires { verdict text.now ≡ Ok tt }
{
    let named = header.name;
    let name = part(text, named.start, named.len);
    let mut place = put_name(out, at, name, colour);
    place = put_nodes(out, place, text, mpdu, first_rows(rows, header.rows));
    put_size(out, place, mpdu, header.right, colour)
}

// Why an MPDU has no name, in colour, at the left of a column.
pub fn put_why(out: &mut Buffer, at: usize, refusal: Refusal, width: usize, colour: bool) -> usize {
    let mut place = output::paint::begin(out, at, colour, Hue::Unnamed);
    place = put_short(out, place, refusal, width);
    output::paint::end(out, place, colour)
}

// An MPDU without a name.
fn put_unnamed(
    out: &mut Buffer,
    at: usize,
    mpdu: &[u8],
    speed: u64,
    refusal: Refusal,
    colour: bool,
) -> usize {
    let mut place = put_why(out, at, refusal, NAMES + 2, colour);
    place = put_no_nodes(out, place);
    put_size(out, place, mpdu, check_crc(mpdu, speed), colour)
}

// What the table says of an MPDU.
pub fn put_mpdu(
    rt: &(impl Env + Files),
    out: &mut Buffer,
    at: usize,
    text: &[u8],
    index: &[u8],
    mpdu: &[u8],
    radio: Radio,
    look: Look,
) -> usize
    requires { verdict text.now ≡ Ok tt }
{
    let speed = radio.speed;
    let mut rows = [0u64; MOST_NUMBERS];
    match decode_accepted(text, mpdu, frame_code(radio.region), speed, &mut rows) {
        Ok(header) => {
            let place = put_header(out, at, text, mpdu, header, &rows, look.colour);
            let bytes = command_part(mpdu, header.payload, speed);
            put_command(rt, out, place, index, bytes, header.right, look)
        }
        Err(refusal) => put_unnamed(out, at, mpdu, speed, refusal, look.colour),
    }
}
