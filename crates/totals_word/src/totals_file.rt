// The word `totals`: the totals of the captures that are named.
ghost use Rattle.std.specs.Prelude.{◌≡◌, Ok};
ghost use Rattle.frame_text.specs.Rules.{verdict};

use crate::day::add_capture;
use crate::words_page::put_page;
use files::arguments::{argument, argument_count};
use files::capture::Opened;
use files::day::{Day, end};
use files::frame_names::{State, load_frames};
use files::input::{Reader, is_spent, is_standard, open_name};
use files::options::{Options, next_file};
use output::outcome::{fail, refuse, tell_unreadable};
use std::rt::{Env, Files};
use totals::TOTALS;
use totals_text::print_totals;
use writer::STDOUT_FILENO;

// The bytes of the longest page.
const ROOM: usize = 32768;

// The page, line by line.
fn print_page(totals: &[u64; TOTALS]) {
    let mut page = [0u8; ROOM];
    if let Ok(n) = print_totals(totals, &mut page) {
        io::write_all(STDOUT_FILENO, &page[..n]);
    }
}

// The page, or the table for people.
fn show_page(text: &[u8], options: Options, totals: &[u64; TOTALS]) {
    if options.words {
        let mut out = io::buffer();
        let at = put_page(text, totals, &mut out);
        writer::flush(&out, at);
        return;
    }
    print_page(totals);
}

// A capture that was opened.
fn add_opened<R: Files + Input>(
    text: &[u8],
    options: Options,
    reader: &mut Reader<R>,
    totals: &mut [u64; TOTALS],
    day: Day,
) -> Day
    requires { verdict text.now ≡ Ok tt }
{
    let mut block = io::buffer();
    let Opened::At(source) = files::capture::open(reader, &mut block) else {
        return day.failed();
    };
    let mut payload = io::large_buffer();
    add_capture(
        text,
        options,
        source,
        reader,
        &mut block,
        &mut payload,
        totals,
        day,
    )
}

// The capture that argument k names. Standard input is read once: where it is spent it cannot be read again.
fn add_file(
    rt: &(impl Env + Files + Input),
    text: &[u8],
    options: Options,
    k: usize,
    spent: bool,
    totals: &mut [u64; TOTALS],
    day: Day,
) -> Day
    requires { verdict text.now ≡ Ok tt }
{
    let mut name = io::buffer();
    let n = argument(rt, k, &mut name);
    if spent && is_standard(&name[..n]) {
        return day.failed();
    }
    match open_name(rt, &name[..n]) {
        Ok(mut reader) => add_opened(text, options, &mut reader, totals, day),
        Err(error) => {
            tell_unreadable(&name[..n], error);
            day.failed()
        }
    }
}

fn add_files(
    rt: &(impl Env + Files + Input),
    text: &[u8],
    options: Options,
    totals: &mut [u64; TOTALS],
) -> Day
    requires { verdict text.now ≡ Ok tt }
{
    let end = argument_count(rt);
    let mut day = Day::new();
    let mut spent = false;
    for k in 2..end {
        if next_file(rt, k) == k {
            day = add_file(rt, text, options, k, spent, totals, day);
            spent = is_spent(rt, k, spent);
        }
    }
    day
}

fn show_by(rt: &(impl Env + Files + Input), text: &[u8], options: Options)
    requires { verdict text.now ≡ Ok tt }
{
    let mut totals = [0u64; TOTALS];
    let day = add_files(rt, text, options, &mut totals);
    show_page(text, options, &totals);
    end(day);
}

// `tap totals FILE ..`.
pub fn show_totals(rt: &(impl Env + Files + Input)) {
    let Some(options) = files::options::read_some(
        rt,
        b"--definitions\t--words\t--region\t--progress\t--firmware\t--beams",
        b"tap: totals takes one FILE or more, or - for standard input\n",
    ) else {
        return;
    };
    let mut text = io::large_buffer();
    let found = load_frames(rt, options.folder, &mut text);
    let n = found.count;
    let state = found.state;
    match state {
        State::Fine => show_by(rt, &text[..n], options),
        State::Missing => fail(b"tap: there are no totals without a frame text\n"),
        State::Refused(refusal) => refuse(refusal),
    }
}
