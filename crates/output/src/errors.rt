// An error of the system in its words, on standard error.
ghost use Rattle.std.specs.Prelude.{◌≤◌, length};

use std::fmt;
use std::fmt::Write;
use std::io::Error;
use writer::{Buffer, STDERR_FILENO, put};

// What stands between the words of an error and its number, as it is printed.
const NUMBERED: [u8; 11] = *b" (os error ";

// What an error is printed as, and how many bytes of it have gathered.
#[derive(Drop)]
struct Printed {
    bytes: Buffer,
    count: usize,
}

impl Write for Printed {
    fn write_str(&mut self, text: &str) -> fmt::Result {
        self.count = put(&mut self.bytes, self.count, text.as_bytes());
        Ok(())
    }
}

// How many of these bytes are an error's words.
fn count_words(printed: &[u8]) -> usize
    ensures { result ≤ length printed.now }
{
    for i in 0..printed.len() {
        if printed[i..].starts_with(&NUMBERED) {
            return i;
        }
    }
    printed.len()
}

// The first n bytes, or all where there are fewer.
fn first(bytes: &[u8], n: usize) -> &[u8] {
    &bytes[..n.min(bytes.len())]
}

// Writes an error without its number.
fn write_words(error: Error) {
    let mut printed = Printed {
        bytes: io::buffer(),
        count: 0,
    };
    let _ = printed.write(error);
    let all = first(&printed.bytes, printed.count);
    let n = count_words(all);
    io::write_all(STDERR_FILENO, &all[..n]);
}

// Writes a line: what failed, a colon and why.
pub fn tell_error(what: &[u8], error: Error) {
    io::write_all(STDERR_FILENO, what);
    io::write_all(STDERR_FILENO, b": ");
    write_words(error);
    io::write_all(STDERR_FILENO, b"\n");
}
