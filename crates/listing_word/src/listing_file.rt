// The arguments of `list` and `judge`: a frame of a capture, and for `judge` the file of a listing.
use crate::judge_listing::{Frame, judge_mpdu};
use crate::list_frame::list_mpdu;
use files::folder::load;
use files::input::{File, Got, Reader};
use files::options::Options;
use frame_search::{Aim, Search, fail_number, read_number, search_capture};
use output::outcome::{fail, fail_capture, fail_file};
use readers::region::frame_code;
use screen::FrameRecord;
use std::num::wrapping_sub_u64;
use std::rt::{Env, Files};
use writer::{STDERR_FILENO, print_number};

// What is asked for: the number of a frame, and the argument that names the listing, none for our own.
#[derive(Clone, Copy)]
struct Task {
    number: u64,
    listing: Option<usize>,
}

// A beam has no header.
fn fail_beam(number: u64) {
    io::write_all(STDERR_FILENO, b"tap: frame ");
    print_number(STDERR_FILENO, number);
    fail(b" is a beam, which has no header\n");
}

// A listing, of which 65,536 bytes are read.
fn judge_file<R: Files + Input>(
    text: &[u8],
    mpdu: &[u8],
    frame: Frame,
    name: &[u8],
    reader: &mut Reader<R>,
) {
    let mut block = io::large_buffer();
    let Got::Bytes(n) = files::input::read_file(reader, &mut block) else {
        fail_file(name, reader.error());
        return;
    };
    judge_mpdu(text, mpdu, frame, &block[..n]);
}

fn open_and_judge(
    rt: &(impl Env + Files + Input),
    text: &[u8],
    mpdu: &[u8],
    frame: Frame,
    argument: usize,
) {
    let mut name = io::buffer();
    let File::Open(mut reader, n) = files::input::open_argument(rt, argument, &mut name) else {
        return;
    };
    judge_file(text, mpdu, frame, &name[..n], &mut reader);
}

fn answer_mpdu(
    rt: &(impl Env + Files + Input),
    text: &[u8],
    mpdu: &[u8],
    heard: FrameRecord,
    task: Task,
) {
    let frame = Frame {
        number: task.number,
        region: frame_code(heard.region as u64),
        rate: heard.rate as u64,
    };
    match task.listing {
        Some(argument) => open_and_judge(rt, text, mpdu, frame, argument),
        None => list_mpdu(text, mpdu, frame.region, frame.rate),
    }
}

// The frame whose bytes are these, by the frame text of the folder.
fn answer_heard(
    rt: &(impl Env + Files + Input),
    heard: FrameRecord,
    mpdu: &[u8],
    task: Task,
    options: Options,
) {
    if heard.is_beam {
        fail_beam(task.number);
        return;
    }
    let mut text = io::large_buffer();
    let Some(n) = load(rt, options.folder, b"frames.txt", &mut text) else {
        fail(b"");
        return;
    };
    answer_mpdu(rt, &text[..n], mpdu, heard, task);
}

// Frame n of a capture.
fn answer_file<R: Env + Files + Input>(
    rt: &R,
    name: &[u8],
    reader: &mut Reader<R>,
    task: Task,
    options: Options,
) {
    let before = wrapping_sub_u64(task.number, 1);
    let mut mpdu = io::buffer();
    let aim = Aim {
        firmware: options.firmware,
        family: options.family,
        left: before,
        payloads: 0,
    };
    match search_capture(reader, aim, &mut mpdu) {
        Search::Found(hit) => {
            let n = hit.count;
            let heard = hit.frame;
            answer_heard(rt, heard, &mpdu[..n], task, options);
        }
        Search::Left(aim) => fail_number(name, task.number, wrapping_sub_u64(before, aim.left)),
        Search::NoCapture(line, column) => fail_capture(name, line, column),
        Search::Unreadable => fail_file(name, reader.error()),
    }
}

fn open_and_answer(rt: &(impl Env + Files + Input), listing: Option<usize>, options: Options) {
    let Some(number) = read_number(rt, options.second) else {
        fail(b"tap: the number of a frame is a decimal number from 1\n");
        return;
    };
    let mut name = io::buffer();
    let File::Open(mut reader, n) = files::input::open_argument(rt, options.file, &mut name) else {
        return;
    };
    let task = Task { number, listing };
    answer_file(rt, &name[..n], &mut reader, task, options);
}

// `tap list FILE N`.
pub fn list_frame(rt: &(impl Env + Files + Input)) {
    let Some(options) = files::options::read(
        rt,
        2,
        b"--definitions\t--firmware\t--beams",
        b"tap: list takes a FILE, or - for standard input, and the number of a frame\n",
    ) else {
        return;
    };
    open_and_answer(rt, None, options);
}

// `tap judge FILE N LISTING`.
pub fn judge_frame(rt: &(impl Env + Files + Input)) {
    let Some(options) = files::options::read(
        rt,
        3,
        b"--definitions\t--firmware\t--beams",
        b"tap: judge takes a FILE, the number of a frame, and the file of a LISTING\n",
    ) else {
        return;
    };
    open_and_answer(rt, Some(options.third), options);
}
