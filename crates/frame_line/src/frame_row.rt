// A frame's line of the table, column by column. Each column keeps two spaces before it.
ghost use Rattle.std.specs.Prelude.{◌≡◌, Ok};
ghost use Rattle.frame_text.specs.Rules.{verdict};

use crate::beam_columns::put_beam;
use crate::mpdu_columns::{Look, Radio, put_mpdu};
use radio::rssi::byte_of;
use readers::cells::part;
use readers::line_fields::field_of;
use screen::FrameRecord;
use std::num::wrapping_sub_u64;
use std::rt::{Env, Files};
use writer::{Buffer, put, put_marked, put_right};

// The names of the columns, with those of record and place or without.
pub fn put_header(out: &mut Buffer, at: usize, records: bool) -> usize {
    let names: &[u8] =
        b"   No\t  Record   Byte\t  Dir  Rate  RSSI  Header                         Home id        Src             Dst  Len  Sum    Command\n";
    let mut place = put(out, at, field_of(names, 0));
    if records {
        place = put(out, place, field_of(names, 1));
    }
    put(out, place, field_of(names, 2))
}

fn put_direction(out: &mut Buffer, at: usize, direction: u8) -> usize {
    if direction == 0 {
        return put(out, at, b"  Rx ");
    }
    put(out, at, b"  Tx ")
}

pub fn put_rate(out: &mut Buffer, at: usize, rate: u8) -> usize {
    let rates: &[u8] = b"  9.6k\t   40k\t  100k\t    LR";
    let k: usize = match rate {
        0 => 0,
        1 => 1,
        2 => 2,
        _ => 3,
    };
    put(out, at, field_of(rates, k))
}

// The RSSI. A transmitted frame has none.
pub fn put_rssi(out: &mut Buffer, at: usize, direction: u8, rssi: i8) -> usize {
    if direction != 0 {
        return put_right(out, at, b"-", 6);
    }
    let byte = byte_of(rssi) as u64;
    if byte < 128 {
        return put_marked(out, at, b"", byte, 6);
    }
    put_marked(out, at, b"-", wrapping_sub_u64(256, byte), 6)
}

// How a frame was heard: direction, rate, strength.
fn put_signal(out: &mut Buffer, at: usize, frame: FrameRecord) -> usize {
    let mut place = put_direction(out, at, frame.direction);
    place = put_rate(out, place, frame.rate);
    put_rssi(out, place, frame.direction, frame.rssi)
}

// What was heard, by an accepted frame text and the index of commands.
fn put_heard(
    rt: &(impl Env + Files),
    out: &mut Buffer,
    at: usize,
    frame: FrameRecord,
    payload: &[u8],
    text: &[u8],
    index: &[u8],
    look: Look,
) -> usize
    requires { verdict text.now ≡ Ok tt }
{
    if frame.is_beam {
        return put_beam(out, at, frame, look.colour);
    }
    let mpdu = part(payload, frame.start as usize, frame.length as usize);
    let radio = Radio {
        region: frame.region as u64,
        speed: frame.rate as u64,
    };
    put_mpdu(rt, out, at, text, index, mpdu, radio, look)
}

// The number of a frame, in front of its line, and where its record stands, or not.
pub fn put_number(
    out: &mut Buffer,
    at: usize,
    number: u64,
    frame: FrameRecord,
    records: bool,
) -> usize {
    let mut place = put_marked(out, at, b"", number, 5);
    if records {
        place = put_marked(out, place, b"", frame.number as u64, 8);
        place = put_marked(out, place, b"", frame.place as u64, 7);
    }
    place
}

// The line of a frame behind its number, from its record and the payload that it stands in.
pub fn put_row(
    rt: &(impl Env + Files),
    out: &mut Buffer,
    at: usize,
    frame: FrameRecord,
    payload: &[u8],
    text: &[u8],
    index: &[u8],
    look: Look,
) -> usize
    requires { verdict text.now ≡ Ok tt }
{
    let mut place = put_signal(out, at, frame);
    place = put_heard(rt, out, place, frame, payload, text, index, look);
    put(out, place, b"\n")
}
