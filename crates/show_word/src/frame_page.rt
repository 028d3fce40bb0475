// A frame whole: how it was heard, its bytes, and its header as a tree and, where it is asked for, as a picture.
use files::options::Options;
use frame_line::beam_columns::{number_of, put_hash_digits};
use frame_line::frame_row::{put_rate, put_rssi};
use frame_line::mpdu_columns::put_why;
use frame_search::Hit;
use header::DecodedHeader;
use output::paint::{Hue, put_painted};
use readers::cells::part;
use refusal::{MOST_FRAME, Refusal};
use screen::FrameRecord;
use trees::field_tree::put_fields;
use trees::hex_dump::put_dump;
use trees::ruler::put_ruler;
use writer::{Buffer, put, put_marked, put_number};

// What the frame's number is, and its direction.
fn put_number_line(out: &mut Buffer, at: usize, number: u64, direction: u8) -> usize {
    let mut place = put(out, at, b"frame ");
    place = put_number(out, place, number);
    if direction == 0 {
        return put(out, place, b"  Rx");
    }
    put(out, place, b"  Tx")
}

// Where it was heard.
fn put_channel(out: &mut Buffer, at: usize, region: u8, channel: u8) -> usize {
    let mut place = put(out, at, b"  PTI region ");
    place = put_number(out, place, region as u64);
    place = put(out, place, b", channel ");
    put_number(out, place, channel as u64)
}

// How it was heard.
fn put_signal(out: &mut Buffer, at: usize, frame: FrameRecord) -> usize {
    let mut place = put_rate(out, at, frame.rate);
    place = put_rssi(out, place, frame.direction, frame.rssi);
    put_channel(out, place, frame.region, frame.channel)
}

// A number that a beam tells as one more, if it is there.
fn put_told(out: &mut Buffer, at: usize, name: &[u8], field: u16) -> usize {
    if field == 0 {
        return at;
    }
    put_marked(out, at, name, number_of(field), 0)
}

// The hash of the home id that a beam tells.
fn put_hash(out: &mut Buffer, at: usize, hash: u16) -> usize {
    if hash == 0 {
        return at;
    }
    let place = put(out, at, b"  hash ");
    put_hash_digits(out, place, hash)
}

// How often a beam was heard, and whom it wakes. Any other frame has none.
fn put_beams(out: &mut Buffer, at: usize, frame: FrameRecord) -> usize {
    if frame.beams == 0 {
        return at;
    }
    let mut place = put_marked(out, at, b"  Beam x", frame.beams as u64, 0);
    place = put_told(out, place, b"  node ", frame.node);
    place = put_hash(out, place, frame.hash);
    put_told(out, place, b"  power ", frame.power)
}

// Where its record stands.
fn put_place(out: &mut Buffer, at: usize, hit: Hit) -> usize {
    let frame = hit.frame;
    let mut place = put_marked(out, at, b"\nrecord ", frame.number as u64, 0);
    place = put_marked(out, place, b", at byte ", frame.place as u64, 0);
    place = put_marked(out, place, b" of payload ", hit.payload, 0);
    put(out, place, b"\n\n")
}

// The frame without its header.
pub fn put_heard(out: &mut Buffer, at: usize, number: u64, hit: Hit, mpdu: &[u8]) -> usize {
    let frame = hit.frame;
    let mut place = put_number_line(out, at, number, frame.direction);
    place = put_signal(out, place, frame);
    place = put_beams(out, place, frame);
    place = put_place(out, place, hit);
    put_dump(out, place, mpdu)
}

// Is the checksum right?
fn put_sum(out: &mut Buffer, at: usize, right: bool, colour: bool) -> usize {
    if right {
        return put(out, at, b", checksum ok\n");
    }
    let place = put_painted(out, at, b", checksum wrong", 0, Hue::Wrong, colour);
    put(out, place, b"\n")
}

// The header's name.
fn put_title(out: &mut Buffer, at: usize, name: &[u8], right: bool, colour: bool) -> usize {
    let mut place = put(out, at, b"\n");
    place = put_painted(out, place, name, 0, Hue::Name, colour);
    put_sum(out, place, right, colour)
}

// How many bits stand before a byte of an MPDU.
fn bits_before(offset: u64) -> usize {
    if (MOST_FRAME as u64) < offset {
        return 0;
    }
    offset as usize * 8
}

// The bits of a header, if there is to be a picture.
fn put_picture(
    out: &mut Buffer,
    at: usize,
    mpdu: &[u8],
    header: DecodedHeader,
    rows: &[u64],
    picture: bool,
) -> usize {
    if picture {
        let place = put(out, at, b"\n");
        return put_ruler(
            out,
            place,
            mpdu,
            rows,
            header.rows,
            bits_before(header.payload),
        );
    }
    at
}

// A header, with its rows.
pub fn put_header(
    out: &mut Buffer,
    at: usize,
    text: &[u8],
    mpdu: &[u8],
    header: DecodedHeader,
    rows: &[u64],
    options: Options,
) -> usize {
    let picture = options.picture;
    let named = header.name;
    let name = part(text, named.start, named.len);
    let mut place = put_title(out, at, name, header.right, options.colour);
    place = put_fields(out, place, text, mpdu, rows, header.rows, picture);
    put_picture(out, place, mpdu, header, rows, picture)
}

// Why a frame has no header.
pub fn put_refused(out: &mut Buffer, at: usize, refusal: Refusal, colour: bool) -> usize {
    let mut place = put(out, at, b"\n");
    place = put_why(out, place, refusal, 0, colour);
    put(out, place, b"\n")
}
