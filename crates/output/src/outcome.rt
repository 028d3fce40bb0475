// How a run of tap ends. The last line of its output is `ok`, `refused N V` (a refusal of docs/RULES.md: its number and what it
// carries) or `failed`; `overlaps` and `judge` have lines of their own besides, `overlaps N` and `differs L`. Where it failed, one line on standard
// error says why.
use crate::errors::tell_error;
use refusal::Refusal;
use std::io::Error;
use writer::{STDERR_FILENO, STDOUT_FILENO};

pub fn succeed() {
    io::write_all(STDOUT_FILENO, b"ok\n");
}

pub fn refuse(refusal: Refusal) {
    io::write_all(STDOUT_FILENO, b"refused ");
    io::print_decimal(STDOUT_FILENO, refusal.number() as u64);
    io::write_all(STDOUT_FILENO, b" ");
    io::print_decimal(STDOUT_FILENO, refusal.carried() as u64);
    io::write_all(STDOUT_FILENO, b"\n");
}

// A file whose text is not accepted, of the kind that it ought to be: `frame` or `command`.
pub fn refuse_text(name: &[u8], kind: &[u8], refusal: Refusal) {
    io::write_all(STDERR_FILENO, b"tap: ");
    io::write_all(STDERR_FILENO, name);
    io::write_all(STDERR_FILENO, b" is no ");
    io::write_all(STDERR_FILENO, kind);
    io::write_all(STDERR_FILENO, b" text that is accepted: 'tap check --");
    io::write_all(STDERR_FILENO, kind);
    io::write_all(STDERR_FILENO, b"' says why\n");
    refuse(refusal);
}

// Ends a line on standard error with these bytes.
pub fn fail(what: &[u8]) {
    io::write_all(STDERR_FILENO, what);
    io::write_all(STDOUT_FILENO, b"failed\n");
}

// A word that there isn't.
pub fn fail_word(word: &[u8]) {
    io::write_all(STDERR_FILENO, b"tap: there is no word '");
    io::write_all(STDERR_FILENO, word);
    fail(b"': 'tap help' lists the words\n");
}

// Says that the system doesn't open or read a file, and why.
pub fn tell_unreadable(name: &[u8], error: Error) {
    io::write_all(STDERR_FILENO, b"tap: cannot read ");
    tell_error(name, error);
}

// A file that the system doesn't open or read.
pub fn fail_file(name: &[u8], error: Error) {
    tell_unreadable(name, error);
    fail(b"");
}

// A file that is no capture, as a line and a column of it show.
pub fn fail_capture(name: &[u8], line: u64, column: u64) {
    io::write_all(STDERR_FILENO, b"tap: ");
    io::write_all(STDERR_FILENO, name);
    io::write_all(
        STDERR_FILENO,
        b" is no capture: its first byte is not 5b, and there is no hex digit at line ",
    );
    io::print_decimal(STDERR_FILENO, line);
    io::write_all(STDERR_FILENO, b", column ");
    io::print_decimal(STDERR_FILENO, column);
    fail(b"\n");
}
