// Which H and P numbers moved when the H blocks of a frame text were sorted, on standard error.
ghost use Rattle.std.specs.Prelude.{◌<◌, length};

use readers::line_fields::field_of;
use readers::lines::{line, next_line};
use std::num::{wrapping_add_u64, wrapping_sub_u64};
use text::is_same;
use writer::STDERR_FILENO;

// How many lines of a kind begin before a place.
fn count_before(text: &[u8], kind: u8, end: usize) -> u64 {
    let mut at: usize = 0;
    let mut n: u64 = 0;
    while at < text.len() && at < end {
        if text[at] == kind {
            n = wrapping_add_u64(n, 1);
        }
        at = next_line(text, at);
    }
    n
}

// Is the line at a place of this kind, with this name? The name of an H is its field 4; a B has none.
fn is_like(text: &[u8], at: usize, kind: u8, name: &[u8]) -> bool
    requires { at < length text.now }
{
    text[at] == kind && is_same(field_of(line(text, at), 4), name)
}

// How many such lines begin before a place.
fn count_like(text: &[u8], kind: u8, name: &[u8], end: usize) -> u64 {
    let mut at: usize = 0;
    let mut n: u64 = 0;
    while at < text.len() && at < end {
        if is_like(text, at, kind, name) {
            n = wrapping_add_u64(n, 1);
        }
        at = next_line(text, at);
    }
    n
}

// Where the one begins before which there are n; the text's end where there is none.
fn find_like(text: &[u8], kind: u8, name: &[u8], n: u64) -> usize {
    let mut at: usize = 0;
    let mut left = n;
    while at < text.len() {
        if is_like(text, at, kind, name) {
            if left == 0 {
                return at;
            }
            left -= 1;
        }
        at = next_line(text, at);
    }
    at
}

// Does a line of this kind own what follows?
fn is_owner(kind: u8) -> bool {
    matches!(kind, b'F' | b'B' | b'H' | b'D')
}

// How many P lines stand under the line at a place.
fn count_under(text: &[u8], start: usize) -> u64
    requires { start < length text.now }
{
    let mut at = next_line(text, start);
    let mut n: u64 = 0;
    while at < text.len() {
        let kind = text[at];
        if is_owner(kind) {
            return n;
        }
        if kind == b'P' {
            n = wrapping_add_u64(n, 1);
        }
        at = next_line(text, at);
    }
    n
}

// Numbers of P lines, of which there are n.
fn say_range(first: u64, n: u64) {
    io::print_decimal(STDERR_FILENO, first);
    if 1 < n {
        io::write_all(STDERR_FILENO, b" to ");
        io::print_decimal(
            STDERR_FILENO,
            wrapping_sub_u64(wrapping_add_u64(first, n), 1),
        );
    }
}

// That n P lines moved. Answers how many lines were said.
fn say_params(old: u64, new: u64, n: u64) -> u64 {
    if n == 0 || old == new {
        return 0;
    }
    io::write_all(STDERR_FILENO, b"P ");
    say_range(old, n);
    io::write_all(STDERR_FILENO, b": now P ");
    say_range(new, n);
    io::write_all(STDERR_FILENO, b"\n");
    1
}

// That a header moved.
fn say_header(old: u64, new: u64, name: &[u8]) -> u64 {
    if old == new {
        return 0;
    }
    io::write_all(STDERR_FILENO, b"H ");
    io::print_decimal(STDERR_FILENO, old);
    io::write_all(STDERR_FILENO, b": now H ");
    io::print_decimal(STDERR_FILENO, new);
    io::write_all(STDERR_FILENO, b", ");
    io::write_all(STDERR_FILENO, name);
    io::write_all(STDERR_FILENO, b"\n");
    1
}

// Of the B or H line at a place of the sorted text: where it stood, and what of it moved.
fn say_section(old: &[u8], new: &[u8], at: usize, kind: u8) -> u64
    requires { at < length new.now }
{
    let name = field_of(line(new, at), 4);
    let stood = find_like(old, kind, name, count_like(new, kind, name, at));
    let mut said: u64 = 0;
    if kind == b'H' {
        said = say_header(
            count_before(old, b'H', stood),
            count_before(new, b'H', at),
            name,
        );
    }
    let first = count_before(old, b'P', stood);
    let moved = say_params(first, count_before(new, b'P', at), count_under(new, at));
    wrapping_add_u64(said, moved)
}

// All that moved, a line each.
pub fn say_moved(old: &[u8], new: &[u8]) {
    let mut at: usize = 0;
    let mut said: u64 = 0;
    while at < new.len() {
        let kind = new[at];
        if kind == b'H' || kind == b'B' {
            said = wrapping_add_u64(said, say_section(old, new, at, kind));
        }
        at = next_line(new, at);
    }
    if said == 0 {
        io::write_all(STDERR_FILENO, b"no H or P number moved\n");
    }
}
