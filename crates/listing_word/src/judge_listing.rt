// The word `judge`: is a listing of a frame's header ours? If not, what ours has at the line that differs.
use header::{DecodedHeader, MOST_NUMBERS, decode_header};
use listing::{Judgement, judge_listing};
use output::outcome::{refuse, succeed};
use output::refusals::put_mpdu_reason;
use readers::cells::part;
use readers::lines::numbered_line;
use refusal::Refusal;
use std::num::wrapping_sub_usize;
use trees::field_tree::put_field;
use writer::{Buffer, STDOUT_FILENO, flush, print_number, put, put_number};

// A frame whose listing is judged: its number, and the region of the frame text and the rate at which it was sent.
#[derive(Clone, Copy)]
pub struct Frame {
    pub number: u64,
    pub region: u64,
    pub rate: u64,
}

fn put_frame(out: &mut Buffer, at: usize, number: u64) -> usize {
    let mut place = put(out, at, b"frame ");
    place = put_number(out, place, number);
    put(out, place, b": ")
}

// Our own header: its number, its name and how many rows it has.
fn put_ours(out: &mut Buffer, at: usize, text: &[u8], header: DecodedHeader) -> usize {
    let named = header.name;
    let mut place = put(out, at, b"ours is header ");
    place = put_number(out, place, header.number as u64);
    place = put(out, place, b", ");
    place = put(out, place, part(text, named.start, named.len));
    place = put(out, place, b", with ");
    place = put_number(out, place, header.rows as u64);
    put(out, place, b" rows\n")
}

// The header's number, on the line behind the rows.
fn put_last(out: &mut Buffer, at: usize, number: usize) -> usize {
    let mut place = put(out, at, b"    the number of the header, ");
    place = put_number(out, place, number as u64);
    put(out, place, b"\n")
}

// What ours has at a line, from 1.
fn put_there(
    out: &mut Buffer,
    at: usize,
    text: &[u8],
    mpdu: &[u8],
    header: DecodedHeader,
    rows: &[u64],
    line: usize,
) -> usize {
    let row = wrapping_sub_usize(line, 1);
    if row < header.rows {
        return put_field(out, at, text, mpdu, rows, row, false);
    }
    if row == header.rows {
        return put_last(out, at, header.number);
    }
    put(out, at, b"    nothing: it ends before\n")
}

// That a line differs, from 1, and what the listing has there.
fn put_differs(out: &mut Buffer, at: usize, listing: &[u8], line: usize) -> usize {
    let mut place = put(out, at, b"no, line ");
    place = put_number(out, place, line as u64);
    place = put(out, place, b" differs. The listing has there\n    ");
    place = put(out, place, numbered_line(listing, line as u64));
    put(out, place, b"\nand ours\n")
}

// The last line of the output where a line differs.
fn end_differing(line: usize) {
    io::write_all(STDOUT_FILENO, b"differs ");
    print_number(STDOUT_FILENO, line as u64);
    io::write_all(STDOUT_FILENO, b"\n");
}

fn say_refused(number: u64, refusal: Refusal) {
    let mut out = io::buffer();
    let mut at = put_frame(&mut out, 0, number);
    at = put(&mut out, at, b"refused by ");
    at = put_mpdu_reason(&mut out, at, refusal);
    at = put(&mut out, at, b"\n");
    flush(&out, at);
    refuse(refusal);
}

fn say_yes(text: &[u8], header: DecodedHeader, number: u64) {
    let mut out = io::buffer();
    let mut at = put_frame(&mut out, 0, number);
    at = put(&mut out, at, b"yes, the listing is ours\n");
    at = put_ours(&mut out, at, text, header);
    flush(&out, at);
    succeed();
}

fn say_differs(
    text: &[u8],
    mpdu: &[u8],
    listing: &[u8],
    header: DecodedHeader,
    rows: &[u64],
    number: u64,
    line: usize,
) {
    let mut out = io::buffer();
    let mut at = put_frame(&mut out, 0, number);
    at = put_differs(&mut out, at, listing, line);
    at = put_there(&mut out, at, text, mpdu, header, rows, line);
    at = put_ours(&mut out, at, text, header);
    flush(&out, at);
    end_differing(line);
}

// The line that differs, from 1, if one does, beside our own header.
fn say_beside(text: &[u8], mpdu: &[u8], listing: &[u8], frame: Frame, differing: Option<usize>) {
    let mut rows = [0u64; MOST_NUMBERS];
    match decode_header(text, mpdu, frame.region, frame.rate, &mut rows) {
        Ok(header) => match differing {
            Some(line) => say_differs(text, mpdu, listing, header, &rows, frame.number, line),
            None => say_yes(text, header, frame.number),
        },
        Err(refusal) => say_refused(frame.number, refusal),
    }
}

// Judges a listing of an MPDU by a frame text.
pub fn judge_mpdu(text: &[u8], mpdu: &[u8], frame: Frame, listing: &[u8]) {
    match judge_listing(text, mpdu, frame.region, frame.rate, listing) {
        Judgement::Yes => say_beside(text, mpdu, listing, frame, None),
        Judgement::Differs(line) => say_beside(text, mpdu, listing, frame, Some(line)),
        Judgement::Refused(refusal) => say_refused(frame.number, refusal),
    }
}
