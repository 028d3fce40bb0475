// The word `xml`: a frame text as XML.
use crate::room::{room, write_first};
use check_word::check_page::check_frame;
use files::arguments::argument_count;
use files::input::{File, Got, Reader, open_argument};
use output::outcome::{fail, fail_file, refuse};
use output::prose::{say, say_number, show};
use refusal::Refusal;
use std::rt::{Env, Files};
use xml_writer::frame_text_to_xml;

fn say_not_plain(name: &[u8], line: usize) {
    show(name);
    say(b" is refused by 15 at line ");
    say_number(line);
    say(
        b":
  it is out of the order that XML wants: all F lines, then each B line with its P lines, then each H
  line with its P lines and behind them its V lines, then each D line with its E lines
",
    );
    refuse(Refusal::NotPlain(line));
}

// Why a text is not written as XML: it is out of plain form, or not accepted.
fn say_unwritten(name: &[u8], text: &[u8], refusal: Refusal) {
    match refusal {
        Refusal::NotPlain(line) => say_not_plain(name, line),
        Refusal::MoreBytes(_) => {
            fail(b"tap: the XML has more bytes than tap writes: 524288 are the most\n")
        }
        _ => check_frame(name, text),
    }
}

fn turn_text(name: &[u8], text: &[u8]) {
    let mut buffer = room();
    match frame_text_to_xml(text, &mut buffer) {
        Ok(n) => write_first(&buffer, n),
        Err(refusal) => say_unwritten(name, text, refusal),
    }
}

// The text of a file. One too long for the block is too long for a text too.
fn turn_file<R: Files + Input>(name: &[u8], reader: &mut Reader<R>) {
    let mut block = io::large_buffer();
    let Got::Bytes(n) = files::input::read_file(reader, &mut block) else {
        fail_file(name, reader.error());
        return;
    };
    turn_text(name, &block[..n]);
}

// `tap xml FILE`.
pub fn write_xml(rt: &(impl Env + Files + Input)) {
    if argument_count(rt) != 3 {
        fail(b"tap: xml takes one FILE, or - for standard input\n");
        return;
    }
    let mut name = io::buffer();
    let File::Open(mut reader, n) = open_argument(rt, 2, &mut name) else {
        return;
    };
    turn_file(&name[..n], &mut reader);
}
