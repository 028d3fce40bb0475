// One frame of a capture, by its number as `tap frames` counts.
#![tactic(auto)]

ghost use Rattle.std.specs.Prelude.{◌≤◌, length};
ghost use Rattle.files.specs.Capture.{Inside};
ghost use Rattle.frame_search.specs.Search.{Holds};

use files::append::append;
use files::arguments::argument;
use files::capture::{Item, Opened, Source, next_item};
use files::input::Reader;
use output::outcome::fail;
use pti::payload::ROW_WIDTH;
use pti::{parse_payload, reading_by};
use readers::cells::part;
use readers::numeral::read_numeral;
use screen::{FrameRecord, record_at};
use std::num::wrapping_add_u64;
use std::rt::{Env, Files};
use writer::STDERR_FILENO;

// The table of a payload's frames: 3,000 rows, more than a payload has frames.
type Table = [u16; 3000 * ROW_WIDTH];

// A frame that was found, how many bytes of its MPDU stand in a lent slice, and in which of the capture's payloads it stands, from 1.
#[derive(Clone, Copy)]
pub struct Hit {
    pub frame: FrameRecord,
    pub count: usize,
    pub payload: u64,
}

// What is sought: the frame after so many, of those behind so many payloads, which a firmware wrote, with beams as a family of their own or not.
#[derive(Clone, Copy)]
pub struct Aim {
    pub firmware: usize,
    pub family: bool,
    pub left: u64,
    pub payloads: u64,
}

impl Aim {
    // With one more payload passed, and so many frames left to pass.
    fn behind(mut self, left: u64) -> Self {
        self.left = left;
        self.payloads = wrapping_add_u64(self.payloads, 1);
        self
    }
}

// What is known of a search.
#[derive(Clone, Copy)]
pub enum Search {
    Found(Hit),
    // What is still sought.
    Left(Aim),
    // A line and a column of what is no capture.
    NoCapture(u64, u64),
    Unreadable,
}

// A frame with its MPDU's bytes.
fn take_hit(payload: &[u8], frame: FrameRecord, number: u64, mpdu: &mut [u8; 4096]) -> Hit
    ensures { result.count ≤ length mpdu.new }
{
    let bytes = part(payload, frame.start as usize, frame.length as usize);
    Hit {
        frame,
        count: append(mpdu, 0, bytes),
        payload: number,
    }
}

// The frame after so many of a payload's.
#[tactic(auto, using(crate::proofs::Laws::row_there))]
fn search_payload(payload: &[u8], aim: Aim, table: &mut Table, mpdu: &mut [u8; 4096]) -> Search
    ensures { Holds mpdu.new result }
{
    let left = aim.left;
    let Ok(n) = parse_payload(payload, aim.firmware, reading_by(aim.family), table) else {
        return Search::Left(aim.behind(left));
    };
    if left < n as u64 {
        let frame = record_at(table, left as usize);
        return Search::Found(take_hit(payload, frame, wrapping_add_u64(aim.payloads, 1), mpdu));
    }
    Search::Left(aim.behind(left - n as u64))
}

// The same of what stands next in a capture. What `tap frames` passes over or refuses is passed over.
fn search_item(
    item: Item,
    payload: &[u8],
    aim: Aim,
    table: &mut Table,
    mpdu: &mut [u8; 4096],
) -> Search
    ensures { Holds mpdu.new result }
{
    match item {
        Item::Payload(count) => match payload.get(..count) {
            Some(bytes) => search_payload(bytes, aim, table, mpdu),
            None => Search::Left(aim.behind(aim.left)),
        },
        Item::Nothing | Item::NotHex(_, _) => Search::Left(aim),
        Item::NoCapture(line, column) => Search::NoCapture(line, column),
        Item::Unreadable => Search::Unreadable,
    }
}

// The same of all that a source gives.
fn find_frame<R: Files + Input>(
    start: Source,
    reader: &mut Reader<R>,
    sought: Aim,
    block: &mut [u8; 4096],
    payload: &mut [u8; 65536],
    table: &mut Table,
    mpdu: &mut [u8; 4096],
) -> Search
    requires { Inside block.old start }
    ensures { Holds mpdu.new result }
{
    let mut source = start;
    let mut aim = sought;
    while 0 < source.left {
        let next = next_item(source, reader, block, payload);
        source = next.source;
        let item = next.item;
        let found = search_item(item, payload, aim, table, mpdu);
        let Search::Left(more) = found else {
            return found;
        };
        aim = more;
    }
    Search::Left(aim)
}

// The frame that is sought in a capture.
pub fn search_capture<R: Files + Input>(
    reader: &mut Reader<R>,
    aim: Aim,
    mpdu: &mut [u8; 4096],
) -> Search
    ensures { Holds mpdu.new result }
{
    let mut block = io::buffer();
    let Opened::At(source) = files::capture::open(reader, &mut block) else {
        return Search::Unreadable;
    };
    let mut payload = io::large_buffer();
    let mut table: Table = [0u16; 3000 * ROW_WIDTH];
    find_frame(
        source,
        reader,
        aim,
        &mut block,
        &mut payload,
        &mut table,
        mpdu,
    )
}

// A capture with fewer frames.
pub fn fail_number(name: &[u8], number: u64, frames: u64) {
    io::write_all(STDERR_FILENO, b"tap: there is no frame ");
    io::print_decimal(STDERR_FILENO, number);
    io::write_all(STDERR_FILENO, b" in ");
    io::write_all(STDERR_FILENO, name);
    if frames == 0 {
        fail(b", nor any other\n");
        return;
    }
    io::write_all(STDERR_FILENO, b": frames go from 1 to ");
    io::print_decimal(STDERR_FILENO, frames);
    fail(b"\n");
}

// The number that argument k says, from 1.
pub fn read_number(rt: &impl Env, k: usize) -> Option<u64> {
    let mut bytes = io::buffer();
    let n = argument(rt, k, &mut bytes);
    read_numeral(&bytes[..n])
}
