// Words on standard output, and bytes of a text shown among them.
use writer::{Buffer, STDOUT_FILENO, flush, print_number, put, put_byte, put_hex};

// How many bytes of a text are shown at most.
const SHOWN: usize = 200;

pub fn say(what: &[u8]) {
    io::write_all(STDOUT_FILENO, what);
}

pub fn say_number(n: usize) {
    print_number(STDOUT_FILENO, n as u64);
}

// A byte that isn't printable.
fn put_escaped(out: &mut Buffer, at: usize, byte: u8) -> usize {
    let place = put(out, at, b"\\x");
    put_hex(out, place, &[byte])
}

// A byte so that it can be seen: a tab by its name, any other that isn't printable by its number.
fn put_shown(out: &mut Buffer, at: usize, byte: u8) -> usize {
    match byte {
        b'\t' => put(out, at, b"<TAB>"),
        b' '..=b'~' => put_byte(out, at, byte),
        _ => put_escaped(out, at, byte),
    }
}

fn put_all(out: &mut Buffer, bytes: &[u8]) -> usize {
    let mut at = 0;
    for byte in bytes {
        at = put_shown(out, at, *byte);
    }
    at
}

fn show_all(bytes: &[u8]) {
    let mut out = io::buffer();
    let at = put_all(&mut out, bytes);
    flush(&out, at);
}

// The bytes of a text: the first of them where there are many.
pub fn show(bytes: &[u8]) {
    show_all(&bytes[..bytes.len().min(SHOWN)]);
    if SHOWN < bytes.len() {
        say(b"..");
    }
}
