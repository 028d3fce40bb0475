// The frames of captures, counted one by one by the lines of a frame text.
ghost use Rattle.std.specs.Prelude.{◌≡◌, Ok};
ghost use Rattle.frame_text.specs.Rules.{verdict};
ghost use Rattle.std.proofs.lemmas.List.Edits.{sets as fill};
ghost use Rattle.readers.specs.Lines.{lines_in, of_kind};
ghost use Rattle.files.specs.Capture.{Inside};
ghost use Rattle.coverage_word.specs.Sets.{set_of, sets_of};

use coverage::{COUNTS, NO_SET, PARAMS, count_header};
use files::capture::{Item, Source, next_item};
use files::day::{Day, pass_line, refuse_payload, tell_progress};
use files::input::Reader;
use files::options::Options;
use frame::{PtiFrame, parse_record, reading_by};
use pti::payload::beams_number;
use readers::cells::part;
use readers::line_fields::field_of;
use readers::lines::{line, next_line};
use readers::region::frame_code;
use records::next_body;
use refusal::{MOST_PAYLOAD, Refusal};
use std::rt::Files;
use text::is_same;

// The number of the first D line of a name.
fn set_number(text: &[u8], name: &[u8]) -> u8
    ensures { result ≡ set_of text.now name.now }
{
    let mut at: usize = 0;
    let mut k: u8 = 0;
    while at < text.len() {
        if text[at] != b'D' {
            at = next_line(text, at);
            continue;
        }
        if k == NO_SET {
            return NO_SET;
        }
        if is_same(field_of(line(text, at), 1), name) {
            return k;
        }
        k += 1;
        at = next_line(text, at);
    }
    NO_SET
}

// Says for each P line of a text which D line its set is, as far as there is room.
pub fn find_sets(text: &[u8], sets: &mut [u8])
    ensures { sets.new ≡ fill sets.old 0 (sets_of text.now (of_kind 0x50 (lines_in text.now))) }
{
    let mut at: usize = 0;
    let mut k: usize = 0;
    while at < text.len() {
        if text[at] == b'P' {
            if sets.len() <= k {
                return;
            }
            sets[k] = set_number(text, field_of(line(text, at), 6));
            k += 1;
        }
        at = next_line(text, at);
    }
}

// The region by which a frame is decoded: that of the option, or its own.
fn region_of(frame: PtiFrame, options: Options) -> u64 {
    if options.has_region {
        return options.region;
    }
    frame_code(frame.region as u64)
}

// Counts the frame of a record, if it holds one. A beam has no header.
fn count_body(
    text: &[u8],
    options: Options,
    body: &[u8],
    sets: &[u8; PARAMS],
    counts: &mut [u64; COUNTS],
)
    requires { verdict text.now ≡ Ok tt }
{
    let Ok(frame) = parse_record(body, options.firmware, reading_by(options.family)) else {
        return;
    };
    let beams = frame.beams;
    if beams_number(beams) != 0 {
        return;
    }
    let start = frame.start;
    let mpdu = part(body, start.0, frame.length as usize);
    count_header(
        text,
        mpdu,
        region_of(frame, options),
        frame.rate as u64,
        sets,
        counts,
    );
}

fn count_frames(
    text: &[u8],
    options: Options,
    payload: &[u8],
    sets: &[u8; PARAMS],
    counts: &mut [u64; COUNTS],
)
    requires { verdict text.now ≡ Ok tt }
{
    let mut at: usize = 1;
    while let Some(span) = next_body(payload, at) {
        let start = span.start.0;
        let end = span.end.0;
        count_body(text, options, &payload[start..end], sets, counts);
        at = end + 2;
    }
}

// A payload of so many bytes.
fn take_payload(
    text: &[u8],
    options: Options,
    count: usize,
    payload: &[u8],
    sets: &[u8; PARAMS],
    counts: &mut [u64; COUNTS],
    day: Day,
) -> Day
    requires { verdict text.now ≡ Ok tt }
{
    let next = day.with_payload();
    tell_progress(options, next);
    if MOST_PAYLOAD < count {
        return refuse_payload(Refusal::TooLong(count), next);
    }
    count_frames(text, options, part(payload, 0, count), sets, counts);
    next
}

fn take_item(
    text: &[u8],
    options: Options,
    item: Item,
    payload: &[u8],
    sets: &[u8; PARAMS],
    counts: &mut [u64; COUNTS],
    day: Day,
) -> Day
    requires { verdict text.now ≡ Ok tt }
{
    match item {
        Item::Payload(count) => take_payload(text, options, count, payload, sets, counts, day),
        Item::Nothing => day,
        Item::NotHex(line, column) | Item::NoCapture(line, column) => pass_line(line, column, day),
        Item::Unreadable => day.failed(),
    }
}

// All payloads that a source gives, by an accepted frame text.
pub fn count_capture<R: Files + Input>(
    text: &[u8],
    options: Options,
    start: Source,
    reader: &mut Reader<R>,
    block: &mut [u8; 4096],
    payload: &mut [u8; 65536],
    sets: &[u8; PARAMS],
    counts: &mut [u64; COUNTS],
    before: Day,
) -> Day
    requires inside { Inside block.old start }
    requires text_value { verdict text.now ≡ Ok tt }
{
    let mut source = start;
    let mut day = before;
    while 0 < source.left {
        let next = next_item(source, reader, block, payload);
        source = next.source;
        let item = next.item;
        day = take_item(text, options, item, payload, sets, counts, day);
    }
    day
}
