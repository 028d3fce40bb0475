// The word `show`: one frame of a capture whole.
use crate::command_page::{put_command, put_short, put_title, put_unknown};
use crate::frame_page::{put_header, put_heard, put_refused};
use command::{decode_params, offsets_by};
use command_part::command_part;
use files::folder::{load, load_command};
use files::input::{File, Reader};
use files::options::Options;
use frame_search::{Aim, Hit, Search, fail_number, read_number, search_capture};
use header::{MOST_NUMBERS, decode_header};
use output::outcome::{fail, fail_capture, fail_file};
use readers::region::frame_code;
use screen::FrameRecord;
use std::num::wrapping_sub_u64;
use std::rt::{Env, Files};
use writer::{Buffer, flush};

// The numbers of a command's rows, of which there are 1,024.
const PARAMS: usize = 1024 * command_rows::ROW_WIDTH;

// The parameters of a command by its text.
fn show_params(text: &[u8], payload: &[u8], by_position: bool, out: &mut Buffer, at: usize) {
    let mut rows = [0u64; PARAMS];
    match decode_params(text, payload, offsets_by(by_position), &mut rows) {
        Ok(told) => {
            let place = put_command(out, at, text, payload, &rows, told.count, told.remainder.0);
            flush(out, place);
            output::outcome::succeed();
        }
        Err(refusal) => {
            flush(out, at);
            output::outcome::refuse(refusal);
        }
    }
}

// A command by its line of the index.
fn show_line(
    rt: &(impl Env + Files),
    line: &[u8],
    payload: &[u8],
    out: &mut Buffer,
    at: usize,
    options: Options,
) {
    if line.is_empty() {
        let place = put_unknown(out, at, payload);
        flush(out, place);
        output::outcome::succeed();
        return;
    }
    let place = put_title(out, at, readers::catalog::name(line), options.colour);
    let mut text = io::large_buffer();
    let Some(n) = load_command(rt, options.folder, readers::catalog::file(line), &mut text) else {
        flush(out, place);
        fail(b"");
        return;
    };
    show_params(&text[..n], payload, options.by_position, out, place);
}

// The command in these bytes of a frame, by the index of the folder.
fn show_command(
    rt: &(impl Env + Files),
    payload: &[u8],
    out: &mut Buffer,
    at: usize,
    options: Options,
) {
    if payload.len() < 2 {
        let place = put_short(out, at, payload);
        flush(out, place);
        output::outcome::succeed();
        return;
    }
    let mut index = io::large_buffer();
    let Some(n) = load_command(rt, options.folder, b"index.txt", &mut index) else {
        flush(out, at);
        fail(b"");
        return;
    };
    let line = readers::catalog::find_command(&index[..n], payload[0], payload[1]);
    show_line(rt, line, payload, out, at, options);
}

// The header of an MPDU by a frame text, and its command.
fn show_mpdu(
    rt: &(impl Env + Files),
    text: &[u8],
    mpdu: &[u8],
    region: u64,
    rate: u64,
    out: &mut Buffer,
    at: usize,
    options: Options,
) {
    let mut rows = [0u64; MOST_NUMBERS];
    match decode_header(text, mpdu, frame_code(region), rate, &mut rows) {
        Ok(header) => {
            let place = put_header(out, at, text, mpdu, header, &rows, options);
            let bytes = command_part(mpdu, header.payload, rate);
            show_command(rt, bytes, out, place, options);
        }
        Err(refusal) => {
            let place = put_refused(out, at, refusal, options.colour);
            flush(out, place);
            output::outcome::refuse(refusal);
        }
    }
}

// The frame whose bytes are these, by the frame text of the folder.
fn show_named(
    rt: &(impl Env + Files),
    frame: FrameRecord,
    mpdu: &[u8],
    out: &mut Buffer,
    at: usize,
    options: Options,
) {
    if frame.is_beam {
        flush(out, at);
        output::outcome::succeed();
        return;
    }
    let mut text = io::large_buffer();
    let Some(n) = load(rt, options.folder, b"frames.txt", &mut text) else {
        flush(out, at);
        fail(b"");
        return;
    };
    show_mpdu(
        rt,
        &text[..n],
        mpdu,
        frame.region as u64,
        frame.rate as u64,
        out,
        at,
        options,
    );
}

fn show_hit(rt: &(impl Env + Files), number: u64, hit: Hit, mpdu: &[u8], options: Options) {
    let mut out = io::buffer();
    let at = put_heard(&mut out, 0, number, hit, mpdu);
    let frame = hit.frame;
    show_named(rt, frame, mpdu, &mut out, at, options);
}

// Frame n of a capture.
fn show_file<R: Env + Files + Input>(
    rt: &R,
    name: &[u8],
    reader: &mut Reader<R>,
    number: u64,
    options: Options,
) {
    let before = wrapping_sub_u64(number, 1);
    let mut mpdu = io::buffer();
    let aim = Aim {
        firmware: options.firmware,
        family: options.family,
        left: before,
        payloads: 0,
    };
    match search_capture(reader, aim, &mut mpdu) {
        Search::Found(hit) => {
            let n = hit.count;
            show_hit(rt, number, hit, &mpdu[..n], options);
        }
        Search::Left(aim) => fail_number(name, number, wrapping_sub_u64(before, aim.left)),
        Search::NoCapture(line, column) => fail_capture(name, line, column),
        Search::Unreadable => fail_file(name, reader.error()),
    }
}

fn open_and_show(rt: &(impl Env + Files + Input), number: u64, options: Options) {
    let mut name = io::buffer();
    let File::Open(mut reader, n) = files::input::open_argument(rt, options.file, &mut name) else {
        return;
    };
    show_file(rt, &name[..n], &mut reader, number, options);
}

// `tap show FILE N`.
pub fn show_frame(rt: &(impl Env + Files + Input)) {
    let Some(options) = files::options::read(
        rt,
        2,
        b"--definitions\t--plain\t--colour\t--picture\t--progress\t--records\t--firmware\t--beams\t--by-position",
        b"tap: show takes a FILE, or - for standard input, and the number of a frame\n",
    ) else {
        return;
    };
    let Some(number) = read_number(rt, options.second) else {
        fail(b"tap: the number of a frame is a decimal number from 1\n");
        return;
    };
    open_and_show(rt, number, options);
}
