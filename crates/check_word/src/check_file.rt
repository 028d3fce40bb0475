// The word `check`: is a definition text accepted, and if not, what is wrong with it?
use crate::check_page::{Kind, check_command, check_frame, kind_of};
use files::arguments::{argument, argument_count};
use files::input::{File, Got, Reader, open_argument};
use output::outcome::{fail, fail_file};
use std::rt::{Env, Files};
use writer::STDERR_FILENO;

// A text that can't be told.
fn fail_kind(name: &[u8]) {
    io::write_all(STDERR_FILENO, b"tap: ");
    io::write_all(STDERR_FILENO, name);
    fail(
        b": no line of it begins with a letter of a definition text and a tab; say --frame or --command before its name\n",
    );
}

// A text of the kind that an option says, or that it shows itself where there is none.
fn check_text(name: &[u8], text: &[u8], said: Option<Kind>) {
    match said.or_else(|| kind_of(text)) {
        Some(Kind::Frame) => check_frame(name, text),
        Some(Kind::Command) => check_command(name, text),
        None => fail_kind(name),
    }
}

// The text of a file. One too long for the block is too long for a text too.
fn check_file<R: Files + Input>(name: &[u8], reader: &mut Reader<R>, said: Option<Kind>) {
    let mut block = io::large_buffer();
    let Got::Bytes(n) = files::input::read_file(reader, &mut block) else {
        fail_file(name, reader.error());
        return;
    };
    check_text(name, &block[..n], said);
}

// The text that argument k names.
fn check_argument(rt: &(impl Env + Files + Input), k: usize, said: Option<Kind>) {
    let mut name = io::buffer();
    let File::Open(mut reader, n) = open_argument(rt, k, &mut name) else {
        return;
    };
    check_file(&name[..n], &mut reader, said);
}

// `tap check --frame FILE`, `tap check --command FILE`.
fn check_said(rt: &(impl Env + Files + Input)) {
    let mut option = io::buffer();
    let n = argument(rt, 2, &mut option);
    match &option[..n] {
        b"--frame" => check_argument(rt, 3, Some(Kind::Frame)),
        b"--command" => check_argument(rt, 3, Some(Kind::Command)),
        _ => fail_usage(),
    }
}

fn fail_usage() {
    fail(
        b"tap: check takes one FILE, or - for standard input, after --frame or --command if you like\n",
    );
}

// `tap check FILE`.
pub fn check_definition(rt: &(impl Env + Files + Input)) {
    match argument_count(rt) {
        3 => check_argument(rt, 2, None),
        4 => check_said(rt),
        _ => fail_usage(),
    }
}
