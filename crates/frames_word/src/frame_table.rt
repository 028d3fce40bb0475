// The frames of a capture as an aligned table.
ghost use Rattle.std.specs.Prelude.{◌≡◌, ◌*◌, ◌≤◌, length, Ok};
ghost use Rattle.pti.specs.Payload.{row_width};
ghost use Rattle.frame_text.specs.Rules.{verdict};
ghost use Rattle.files.specs.Capture.{Inside};

use crate::sheet::{Fault, Sheet, put_empty, put_passed, put_refused, tell_progress};
use files::capture::{Item, Next, Source, next_item};
use files::input::Reader;
use frame_line::frame_row::{put_header, put_number, put_row};
use pti::payload::ROW_WIDTH;
use pti::{parse_payload, reading_by};
use refusal::Refusal;
use screen::{FrameRecord, record_at};
use std::rt::{Env, Files};
use writer::{Buffer, flush};

// The table of a payload's frames: 3,000 rows. A record with a frame has at least 22 bytes, so a payload has no more than 2,978 frames.
pub type Table = [u16; 3000 * ROW_WIDTH];

// The line of a frame.
fn put_frame(
    rt: &(impl Env + Files),
    text: &[u8],
    index: &[u8],
    payload: &[u8],
    frame: FrameRecord,
    out: &mut Buffer,
    sheet: Sheet,
) -> Sheet
    requires { verdict text.now ≡ Ok tt }
{
    let next = sheet.with_frame(frame.is_beam);
    let from = put_number(out, next.at, next.frames, frame, next.records);
    let at = put_row(rt, out, from, frame, payload, text, index, next.look());
    tell_progress(next);
    next.gathered(at)
}

// The lines of the first n rows of a table.
fn put_frames(
    rt: &(impl Env + Files),
    text: &[u8],
    index: &[u8],
    payload: &[u8],
    table: &[u16],
    n: usize,
    out: &mut Buffer,
    sheet: Sheet,
) -> Sheet
    requires row_width_in_bounds { n * row_width ≤ length table.now }
    requires text_value { verdict text.now ≡ Ok tt }
{
    let mut shown = sheet;
    for i in 0..n {
        shown = put_frame(rt, text, index, payload, record_at(table, i), out, shown);
    }
    shown
}

// A payload's frames, or why it is refused.
fn put_payload(
    rt: &(impl Env + Files),
    text: &[u8],
    index: &[u8],
    payload: &[u8],
    table: &mut Table,
    out: &mut Buffer,
    sheet: Sheet,
) -> Sheet
    requires { verdict text.now ≡ Ok tt }
{
    match parse_payload(payload, sheet.firmware, reading_by(sheet.family), table) {
        Ok(0) => put_empty(out, sheet),
        Ok(n) => put_frames(rt, text, index, payload, table, n, out, sheet),
        Err(refusal) => put_refused(refusal, out, sheet),
    }
}

// The sheet with one more payload, under the table's header.
fn begin_payload(out: &mut Buffer, sheet: Sheet) -> Sheet {
    if sheet.payloads == 0 {
        let at = put_header(out, sheet.at, sheet.records);
        return sheet.gathered(at).with_payload();
    }
    sheet.with_payload()
}

// A payload of so many bytes: those that the slice has no room for are too many.
fn take_payload(
    rt: &(impl Env + Files),
    text: &[u8],
    index: &[u8],
    count: usize,
    payload: &[u8],
    table: &mut Table,
    out: &mut Buffer,
    sheet: Sheet,
) -> Sheet
    requires { verdict text.now ≡ Ok tt }
{
    let next = begin_payload(out, sheet);
    match payload.get(..count) {
        Some(bytes) => put_payload(rt, text, index, bytes, table, out, next),
        None => put_refused(Refusal::TooLong(count), out, next),
    }
}

fn take_item(
    rt: &(impl Env + Files),
    text: &[u8],
    index: &[u8],
    item: Item,
    payload: &[u8],
    table: &mut Table,
    out: &mut Buffer,
    sheet: Sheet,
) -> Sheet
    requires { verdict text.now ≡ Ok tt }
{
    match item {
        Item::Payload(count) => take_payload(rt, text, index, count, payload, table, out, sheet),
        Item::Nothing => sheet,
        Item::NotHex(line, column) => put_passed(line, column, out, sheet),
        Item::NoCapture(line, column) => sheet.failed(Fault::NoCapture(line, column)),
        Item::Unreadable => sheet.failed(Fault::Unreadable),
    }
}

// Shows what there is before more has to be waited for, as of a capture that is still going on.
fn show_now(source: Source, out: &Buffer, sheet: Sheet) -> Sheet {
    if source.is_dry() {
        flush(out, sheet.at);
        return sheet.gathered(0);
    }
    sheet
}

fn take_next(
    rt: &(impl Env + Files),
    text: &[u8],
    index: &[u8],
    next: Next,
    payload: &[u8],
    table: &mut Table,
    out: &mut Buffer,
    sheet: Sheet,
) -> Sheet
    requires { verdict text.now ≡ Ok tt }
{
    let item = next.item;
    let shown = take_item(rt, text, index, item, payload, table, out, sheet);
    show_now(next.source, out, shown)
}

// The frames of all that a source gives, by an accepted frame text and the index of commands.
pub fn put_capture<R: Env + Files + Input>(
    rt: &R,
    text: &[u8],
    index: &[u8],
    start: Source,
    reader: &mut Reader<R>,
    block: &mut [u8; 4096],
    payload: &mut [u8; 65536],
    table: &mut Table,
    out: &mut Buffer,
    empty: Sheet,
) -> Sheet
    requires inside { Inside block.old start }
    requires text_value { verdict text.now ≡ Ok tt }
{
    let mut source = start;
    let mut sheet = empty;
    while 0 < source.left {
        let next = next_item(source, reader, block, payload);
        source = next.source;
        sheet = take_next(rt, text, index, next, payload, table, out, sheet);
    }
    sheet
}
