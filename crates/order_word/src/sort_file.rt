// The word `sort`: a frame text with its H blocks sorted by name. The text is all of the output but its last line, which bin/tap takes off.
use crate::moved::say_moved;
use files::arguments::argument_count;
use files::input::{File, Got, Reader, open_argument};
use output::outcome::{fail, fail_file, refuse_text, succeed};
use sorting::sort_headers;
use std::rt::{Env, Files};
use writer::STDOUT_FILENO;

fn write_text(text: &[u8], sorted: &[u8]) {
    if io::write_all(STDOUT_FILENO, sorted) {
        say_moved(text, sorted);
        succeed();
        return;
    }
    fail(b"tap: the text could not be written\n");
}

fn sort_text(name: &[u8], text: &[u8], buffer: &mut [u8]) {
    match sort_headers(text, buffer) {
        Ok(n) => write_text(text, &buffer[..n]),
        Err(refusal) => refuse_text(name, b"frame", refusal),
    }
}

// The text of a file. One too long for the block is too long for a text too.
fn sort_file<R: Files + Input>(name: &[u8], reader: &mut Reader<R>) {
    let mut block = io::large_buffer();
    let Got::Bytes(n) = files::input::read_file(reader, &mut block) else {
        fail_file(name, reader.error());
        return;
    };
    let mut buffer = io::large_buffer();
    sort_text(name, &block[..n], &mut buffer);
}

// `tap sort FILE`.
pub fn sort_definition(rt: &(impl Env + Files + Input)) {
    if argument_count(rt) != 3 {
        fail(b"tap: sort takes one FILE, or - for standard input\n");
        return;
    }
    let mut name = io::buffer();
    let File::Open(mut reader, n) = open_argument(rt, 2, &mut name) else {
        return;
    };
    sort_file(&name[..n], &mut reader);
}
