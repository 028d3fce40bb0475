// The word `frames`: the frames of a capture as a table.
ghost use Rattle.std.specs.Prelude.{◌≡◌, Ok};
ghost use Rattle.frame_text.specs.Rules.{verdict};

use crate::frame_table::{Table, put_capture};
use crate::sheet::{Fault, Sheet, print_end};
use files::capture::Opened;
use files::folder::load;
use files::frame_names::{State, load_frames};
use files::input::{File, Reader};
use files::options::Options;
use output::outcome::fail_file;
use pti::payload::ROW_WIDTH;
use std::rt::{Env, Files};

// A capture, by an accepted frame text and the index of commands.
fn show_capture<R: Env + Files + Input>(
    rt: &R,
    name: &[u8],
    reader: &mut Reader<R>,
    text: &[u8],
    index: &[u8],
    empty: Sheet,
)
    requires { verdict text.now ≡ Ok tt }
{
    let mut block = io::buffer();
    let Opened::At(source) = files::capture::open(reader, &mut block) else {
        fail_file(name, reader.error());
        return;
    };
    let mut payload = io::large_buffer();
    let mut table: Table = [0u16; 3000 * ROW_WIDTH];
    let mut out = io::buffer();
    let sheet = put_capture(
        rt,
        text,
        index,
        source,
        reader,
        &mut block,
        &mut payload,
        &mut table,
        &mut out,
        empty,
    );
    writer::flush(&out, sheet.at);
    print_end(name, sheet, reader.error());
}

// The same with the index of the folder, if it has one.
fn show_indexed<R: Env + Files + Input>(
    rt: &R,
    name: &[u8],
    reader: &mut Reader<R>,
    text: &[u8],
    folder: usize,
    empty: Sheet,
)
    requires { verdict text.now ≡ Ok tt }
{
    let mut index = io::large_buffer();
    match load(rt, folder, b"commands/index.txt", &mut index) {
        Some(n) => show_capture(rt, name, reader, text, &index[..n], empty),
        None => show_capture(rt, name, reader, text, b"", empty.failed(Fault::Unnamed)),
    }
}

// The same by a frame text that was found so.
fn show_found<R: Env + Files + Input>(
    rt: &R,
    name: &[u8],
    reader: &mut Reader<R>,
    text: &[u8],
    state: State,
    folder: usize,
    empty: Sheet,
)
    requires { verdict text.now ≡ Ok tt }
{
    match state {
        State::Fine => show_indexed(rt, name, reader, text, folder, empty),
        State::Missing => show_capture(rt, name, reader, text, b"", empty.failed(Fault::Unnamed)),
        State::Refused(refusal) => show_capture(
            rt,
            name,
            reader,
            text,
            b"",
            empty.failed(Fault::Refused(refusal)),
        ),
    }
}

fn show_file<R: Env + Files + Input>(
    rt: &R,
    name: &[u8],
    reader: &mut Reader<R>,
    options: Options,
) {
    let mut text = io::large_buffer();
    let found = load_frames(rt, options.folder, &mut text);
    let n = found.count;
    let state = found.state;
    show_found(
        rt,
        name,
        reader,
        &text[..n],
        state,
        options.folder,
        Sheet::new(options),
    );
}

// `tap frames FILE`.
pub fn show_frames(rt: &(impl Env + Files + Input)) {
    let Some(options) = files::options::read(
        rt,
        1,
        b"--definitions\t--plain\t--colour\t--picture\t--progress\t--records\t--firmware\t--beams\t--by-position",
        b"tap: frames takes one FILE, or - for standard input\n",
    ) else {
        return;
    };
    let mut name = io::buffer();
    let File::Open(mut reader, n) = files::input::open_argument(rt, options.file, &mut name) else {
        return;
    };
    show_file(rt, &name[..n], &mut reader, options);
}
