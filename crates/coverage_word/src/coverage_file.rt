// The word `coverage`: what the captures that are named have tried of a frame text.
ghost use Rattle.std.specs.Prelude.{◌≡◌, Ok};
ghost use Rattle.frame_text.specs.Rules.{verdict};

use crate::lines_page::{put_lines, put_sums};
use crate::missing_page::put_missing;
use crate::tried::{count_capture, find_sets};
use coverage::{COUNTS, NO_SET, PARAMS};
use files::arguments::{argument, argument_count};
use files::capture::Opened;
use files::day::{Day, end};
use files::input::{File, Got, Reader, is_spent, is_standard, open_argument, open_name};
use files::options::{Options, next_file};
use frame_text::check_frame_text;
use output::outcome::{fail, fail_file, refuse_text, tell_unreadable};
use std::rt::{Env, Files};

const USAGE: [u8; 57] = *b"tap: coverage takes a frame text and one capture or more\n";

// The page: how much was tried, what was not where that is asked for, and every line.
fn show_page(text: &[u8], options: Options, counts: &[u64; COUNTS]) {
    let mut out = io::buffer();
    let mut at = put_sums(text, counts, &mut out, 0);
    at = writer::put_byte(&mut out, at, b'\n');
    if options.missing {
        at = put_missing(text, counts, &mut out, at);
    }
    at = put_lines(text, counts, &mut out, at);
    writer::flush(&out, at);
}

// A capture that was opened.
fn count_opened<R: Files + Input>(
    text: &[u8],
    options: Options,
    reader: &mut Reader<R>,
    sets: &[u8; PARAMS],
    counts: &mut [u64; COUNTS],
    day: Day,
) -> Day
    requires { verdict text.now ≡ Ok tt }
{
    let mut block = io::buffer();
    let Opened::At(source) = files::capture::open(reader, &mut block) else {
        return day.failed();
    };
    let mut payload = io::large_buffer();
    count_capture(
        text,
        options,
        source,
        reader,
        &mut block,
        &mut payload,
        sets,
        counts,
        day,
    )
}

// The capture that argument k names. Standard input is read once: where it is spent it cannot be read again.
fn count_file(
    rt: &(impl Env + Files + Input),
    text: &[u8],
    options: Options,
    k: usize,
    spent: bool,
    sets: &[u8; PARAMS],
    counts: &mut [u64; COUNTS],
    day: Day,
) -> Day
    requires { verdict text.now ≡ Ok tt }
{
    let mut name = io::buffer();
    let n = argument(rt, k, &mut name);
    if spent && is_standard(&name[..n]) {
        return day.failed();
    }
    match open_name(rt, &name[..n]) {
        Ok(mut reader) => count_opened(text, options, &mut reader, sets, counts, day),
        Err(error) => {
            tell_unreadable(&name[..n], error);
            day.failed()
        }
    }
}

// The captures: the arguments behind the text that are no options.
fn count_files(
    rt: &(impl Env + Files + Input),
    text: &[u8],
    options: Options,
    sets: &[u8; PARAMS],
    counts: &mut [u64; COUNTS],
) -> Day
    requires { verdict text.now ≡ Ok tt }
{
    let end = argument_count(rt);
    let mut day = Day::new();
    let mut spent = false;
    for k in 2..end {
        if k != options.file && next_file(rt, k) == k {
            day = count_file(rt, text, options, k, spent, sets, counts, day);
            spent = is_spent(rt, k, spent);
        }
    }
    day
}

fn cover(rt: &(impl Env + Files + Input), text: &[u8], options: Options)
    requires { verdict text.now ≡ Ok tt }
{
    let mut sets = [NO_SET; PARAMS];
    find_sets(text, &mut sets);
    let mut counts = [0u64; COUNTS];
    let day = count_files(rt, text, options, &sets, &mut counts);
    show_page(text, options, &counts);
    end(day);
}

fn judge(rt: &(impl Env + Files + Input), name: &[u8], text: &[u8], options: Options) {
    match check_frame_text(text) {
        Ok(()) => cover(rt, text, options),
        Err(refusal) => refuse_text(name, b"frame", refusal),
    }
}

// The text of a file. One too long for the block is too long for a text too.
fn cover_file<R: Env + Files + Input>(
    rt: &R,
    name: &[u8],
    reader: &mut Reader<R>,
    options: Options,
) {
    let mut block = io::large_buffer();
    let Got::Bytes(n) = files::input::read_file(reader, &mut block) else {
        fail_file(name, reader.error());
        return;
    };
    judge(rt, name, &block[..n], options);
}

// `tap coverage FILE CAPTURE ..`.
pub fn show_coverage(rt: &(impl Env + Files + Input)) {
    let Some(options) = files::options::read_some(
        rt,
        b"--missing\t--region\t--progress\t--firmware\t--beams",
        &USAGE,
    ) else {
        return;
    };
    if options.count < 2 {
        fail(&USAGE);
        return;
    }
    let mut name = io::buffer();
    let File::Open(mut reader, n) = open_argument(rt, options.file, &mut name) else {
        return;
    };
    cover_file(rt, &name[..n], &mut reader, options);
}
