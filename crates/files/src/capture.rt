// A capture's payloads, one after the other. A capture whose first byte is 5B, with which every record starts, is one raw
// payload. Any other is hex text: a payload a line, and `#` before a comment.

ghost use Rattle.std.specs.Prelude.{◌≡◌, ◌<◌, ◌≤◌, length};
ghost use Rattle.files.specs.Capture.{Inside, Falls, Opens, Reads};

use crate::capture_line::{Line, take_character};
use crate::input::{Got, Reader};
use std::num::wrapping_add_u64;
use std::rt::Files;

// The byte with which a record starts.
const PREAMBLE: u8 = 0x5B;

// Where the reading of a capture stands. What was read of it stands in a block that the caller lends.
#[derive(Clone, Copy)]
pub struct Source {
    pub is_raw: bool,
    // How many bytes of the block are filled, and the place of the next.
    pub filled: usize,
    pub next: usize,
    // The line that comes next, from 1.
    pub line: u64,
    // Was there a payload yet?
    pub has_payload: bool,
    // How many bytes may still come: at first more than any file has, 0 once there are no more.
    pub left: u64,
}

#[derive(Clone, Copy)]
pub enum Opened {
    At(Source),
    Unreadable,
}

// The next byte, if there is one.
#[derive(Clone, Copy)]
pub enum Read {
    Byte(u8, Source),
    End,
    Unreadable,
}

// What stands next in a capture.
#[derive(Clone, Copy)]
pub enum Item {
    // A payload of so many bytes. The lent slice holds as many of them as it has room for.
    Payload(usize),
    // A line with nothing on it, or nothing but a comment.
    Nothing,
    // A line and a column with no hex digit where one belongs.
    NotHex(u64, u64),
    // The same before any payload: this is no capture.
    NoCapture(u64, u64),
    // The system doesn't read on, and the reader's `error` says why.
    Unreadable,
}

#[derive(Clone, Copy)]
pub struct Next {
    pub item: Item,
    pub source: Source,
}

impl Source {
    fn refilled(mut self, n: usize) -> Self
        ensures { (result.filled ≡ n) × (result.next ≡ 0) × (result.left ≡ self.left) }
    {
        self.filled = n;
        self.next = 0;
        self
    }

    fn past_byte(mut self) -> Self
        requires { (self.next < self.filled) × (0 < self.left) }
        ensures { (result.filled ≡ self.filled) × (result.left < self.left) }
    {
        self.next = self.next + 1;
        self.left = self.left - 1;
        self
    }

    fn past_line(mut self) -> Self
        ensures { (result.filled ≡ self.filled) × (result.left ≡ self.left) }
    {
        self.line = wrapping_add_u64(self.line, 1);
        self
    }

    fn past_payload(mut self) -> Self
        ensures { (result.filled ≡ self.filled) × (result.left ≡ self.left) }
    {
        self.has_payload = true;
        self
    }

    // Nothing more comes.
    fn over(mut self) -> Self
        ensures { (result.filled ≡ self.filled) × (result.left ≡ 0) }
    {
        self.left = 0;
        self
    }

    // Will the next byte have to be waited for?
    pub fn is_dry(self) -> bool {
        self.filled <= self.next
    }
}

// Does a block of so many bytes start as a raw payload does?
fn starts_raw(block: &[u8], filled: usize) -> bool
    requires { filled ≤ length block.now }
{
    0 < filled && block[0] == PREAMBLE
}

// A capture from its first byte on.
pub fn open<R: Files + Input>(reader: &mut Reader<R>, block: &mut [u8]) -> Opened
    ensures { Opens block.new result }
{
    let Got::Bytes(filled) = reader.read(block) else {
        return Opened::Unreadable;
    };
    let is_raw = starts_raw(block, filled);
    Opened::At(Source {
        is_raw,
        filled,
        next: 0,
        line: 1,
        has_payload: false,
        left: u64::MAX,
    })
}

// The next byte, from the block, or from the file once the block is used up.
fn next_byte<R: Files + Input>(source: Source, reader: &mut Reader<R>, block: &mut [u8]) -> Read
    requires { Inside block.old source }
    ensures { Reads block.new source result }
{
    if source.left == 0 {
        return Read::End;
    }
    let next = source.next;
    if next < source.filled {
        return Read::Byte(block[next], source.past_byte());
    }
    let Got::Bytes(n) = reader.read(block) else {
        return Read::Unreadable;
    };
    if n == 0 {
        return Read::End;
    }
    Read::Byte(block[0], source.refilled(n).past_byte())
}

// What the line at a source comes to.
fn item_of(line: Line, source: Source) -> Item {
    match line.content() {
        Ok(0) => Item::Nothing,
        Ok(count) => Item::Payload(count),
        Err(column) if source.has_payload => Item::NotHex(source.line, column),
        Err(column) => Item::NoCapture(source.line, column),
    }
}

// Where reading stands after it.
fn source_after(item: Item, source: Source) -> Source
    ensures { (result.filled ≡ source.filled) × (result.left ≤ source.left) }
{
    let next = source.past_line();
    match item {
        Item::Payload(_) => next.past_payload(),
        Item::Nothing | Item::NotHex(_, _) => next,
        Item::NoCapture(_, _) | Item::Unreadable => next.over(),
    }
}

fn end_line(line: Line, source: Source) -> Next
    ensures { (result.source.filled ≡ source.filled) × (result.source.left ≤ source.left) }
{
    let item = item_of(line, source);
    Next {
        item,
        source: source_after(item, source),
    }
}

// What stands next in a capture. A payload goes into the lent slice.
pub fn next_item<R: Files + Input>(
    start: Source,
    reader: &mut Reader<R>,
    block: &mut [u8],
    payload: &mut [u8],
) -> Next
    requires { Inside block.old start × (0 < start.left) }
    ensures { Falls block.new start result.source }
{
    let mut source = start;
    let mut line = Line::new(start.is_raw);
    loop {
        match next_byte(source, reader, block) {
            Read::Byte(byte, next) => {
                source = next;
                if line.ends(byte) {
                    return end_line(line, source);
                }
                line = take_character(line, byte, payload);
            }
            Read::End => {
                return end_line(line, source.over());
            }
            Read::Unreadable => {
                return Next {
                    item: Item::Unreadable,
                    source: source.over(),
                };
            }
        }
    }
}
