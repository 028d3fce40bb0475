// The word `text`: XML as a frame text.
ghost use Rattle.std.specs.Prelude.{◌≡◌, None};
ghost use Rattle.xml_document.specs.Document.{verdict};

use crate::fault_words::say_fault;
use crate::room::{ROOM as MOST, room, write_first};
use check_word::check_page::check_frame;
use files::arguments::argument_count;
use files::input::{File, Got, Reader, open_argument};
use output::outcome::{fail, fail_file, refuse};
use output::prose::{say, show};
use refusal::Refusal;
use std::rt::{Env, Files};
use writer::STDERR_FILENO;
use xml::xml_to_frame_text;
use xml_document::check;
use xml_draft::ROOM;
use xml_reader::put_text;

// ---- refusals

fn say_long(name: &[u8]) {
    show(name);
    say(b" is refused by 2: its frame text has more than 60000 bytes\n");
    refuse(Refusal::Limit(0));
}

fn say_unfit(name: &[u8], text: &[u8]) {
    say(b"the frame text of ");
    check_frame(name, text);
}

// What is wrong with the text that an XML says, as `tap check` tells it.
fn say_text(name: &[u8], xml: &[u8])
    requires { verdict xml.now ≡ None }
{
    let mut text = [0u8; ROOM];
    let n = put_text(xml, &mut text);
    if ROOM < n {
        say_long(name);
        return;
    }
    say_unfit(name, &text[..n]);
}

fn say_refused(name: &[u8], xml: &[u8], refusal: Refusal) {
    match check(xml) {
        None => say_text(name, xml),
        Some(place) => {
            say_fault(name, xml, place);
            refuse(refusal);
        }
    }
}

// ---- `tap text FILE`

fn turn_xml(name: &[u8], xml: &[u8]) {
    let mut buffer = io::large_buffer();
    match xml_to_frame_text(xml, &mut buffer) {
        Ok(n) => write_first(&buffer, n),
        Err(refusal) => say_refused(name, xml, refusal),
    }
}

fn fail_long(name: &[u8]) {
    io::write_all(STDERR_FILENO, b"tap: ");
    io::write_all(STDERR_FILENO, name);
    fail(b" has more bytes than tap reads of an XML: 524287 are the most\n");
}

// The XML of a file.
fn turn_file<R: Files + Input>(name: &[u8], reader: &mut Reader<R>) {
    let mut block = room();
    let Got::Bytes(n) = files::input::read_file(reader, &mut block) else {
        fail_file(name, reader.error());
        return;
    };
    if n == MOST {
        fail_long(name);
        return;
    }
    turn_xml(name, &block[..n]);
}

// `tap text FILE`.
pub fn write_text(rt: &(impl Env + Files + Input)) {
    if argument_count(rt) != 3 {
        fail(b"tap: text takes one FILE, or - for standard input\n");
        return;
    }
    let mut name = io::buffer();
    let File::Open(mut reader, n) = open_argument(rt, 2, &mut name) else {
        return;
    };
    turn_file(&name[..n], &mut reader);
}
