// The payloads of captures, added to totals one by one.
ghost use Rattle.std.specs.Prelude.{◌≡◌, ◌<◌, Ok};
ghost use Rattle.frame_text.specs.Rules.{verdict};
ghost use Rattle.files.specs.Capture.{Inside};

use files::capture::{Item, Source, next_item};
use files::day::{Day, pass_line, refuse_payload, tell_progress};
use files::input::Reader;
use files::options::Options;
use frame::{Reading, parse_record, reading_by};
use readers::region::frame_code;
use records::next_body;
use refusal::Refusal;
use std::rt::Files;
use totals::{TOTALS, add_accepted};

// The F code of the first frame's region, as the table of frames has it.
fn first_code(payload: &[u8], firmware: usize, reading: Reading) -> u64 {
    let mut at: usize = 1;
    while let Some(span) = next_body(payload, at) {
        let start = span.start.0;
        let end = span.end.0;
        if let Ok(frame) = parse_record(&payload[start..end], firmware, reading) {
            return frame_code(frame.region as u64);
        }
        at = end + 2;
    }
    frame_code(0)
}

// The region by which the frames of a payload are decoded.
fn region_of(payload: &[u8], options: Options) -> u64 {
    if options.has_region {
        return options.region;
    }
    first_code(payload, options.firmware, reading_by(options.family))
}

fn add_one(
    text: &[u8],
    options: Options,
    payload: &[u8],
    totals: &mut [u64; TOTALS],
    day: Day,
) -> Day
    requires { verdict text.now ≡ Ok tt }
{
    let region = region_of(payload, options);
    let reading = reading_by(options.family);
    match add_accepted(text, region, options.firmware, reading, payload, totals) {
        Ok(()) => day,
        Err(refusal) => refuse_payload(refusal, day),
    }
}

// A payload of so many bytes: those that the slice has no room for are too many.
fn take_payload(
    text: &[u8],
    options: Options,
    count: usize,
    payload: &[u8],
    totals: &mut [u64; TOTALS],
    day: Day,
) -> Day
    requires { verdict text.now ≡ Ok tt }
{
    let next = day.with_payload();
    tell_progress(options, next);
    if payload.len() < count {
        return refuse_payload(Refusal::TooLong(count), next);
    }
    add_one(text, options, &payload[..count], totals, next)
}

fn take_item(
    text: &[u8],
    options: Options,
    item: Item,
    payload: &[u8],
    totals: &mut [u64; TOTALS],
    day: Day,
) -> Day
    requires { verdict text.now ≡ Ok tt }
{
    match item {
        Item::Payload(count) => take_payload(text, options, count, payload, totals, day),
        Item::Nothing => day,
        Item::NotHex(line, column) | Item::NoCapture(line, column) => pass_line(line, column, day),
        Item::Unreadable => day.failed(),
    }
}

// All payloads that a source gives, by an accepted frame text.
pub fn add_capture<R: Files + Input>(
    text: &[u8],
    options: Options,
    start: Source,
    reader: &mut Reader<R>,
    block: &mut [u8; 4096],
    payload: &mut [u8; 65536],
    totals: &mut [u64; TOTALS],
    before: Day,
) -> Day
    requires inside { Inside block.old start }
    requires text_value { verdict text.now ≡ Ok tt }
{
    let mut source = start;
    let mut day = before;
    while 0 < source.left {
        let next = next_item(source, reader, block, payload);
        source = next.source;
        let item = next.item;
        day = take_item(text, options, item, payload, totals, day);
    }
    day
}
