// The word `overlaps`: which headers of one base cannot be told apart, and whether the order of the H blocks matters.
ghost use Rattle.std.specs.Prelude.{◌≡◌, Ok};
ghost use Rattle.frame_text.specs.Rules.{verdict};

use files::arguments::argument_count;
use files::input::{File, Got, Reader, open_argument};
use frame_text::check_frame_text;
use output::outcome::{fail, fail_file, refuse_text, succeed};
use overlaps::{all_apart, find_header, tell_numbers};
use readers::line_fields::field_of;
use readers::lines::find_line;
use std::num::wrapping_add_u64;
use std::rt::{Env, Files};
use writer::{Buffer, STDOUT_FILENO, flush, put, put_left, put_marked, put_number};

// Wide enough for most names; a longer one moves what stands behind it.
const NAME: usize = 28;

// The H lines that a frame text has at most.
const HEADERS: usize = 64;

// Why two headers cannot be told apart.
fn put_reason(out: &mut Buffer, at: usize, told: u64) -> usize {
    let words: &[u8] =
        b"no V line on a common path\tthe same values on their common paths\tother values, in fields of their own";
    put(out, at, field_of(words, told as usize))
}

fn put_header(out: &mut Buffer, at: usize, text: &[u8], k: usize) -> usize {
    let mut place = put_marked(out, at, b"", k as u64, 4);
    place = put(out, place, b"  ");
    put_left(out, place, field_of(find_line(text, b'H', k), 4), NAME)
}

// The line of a pair.
fn say_pair(text: &[u8], a: usize, b: usize, told: u64) {
    let mut out = io::buffer();
    let mut at = put_header(&mut out, 0, text, a);
    at = put_header(&mut out, at, text, b);
    at = put(&mut out, at, b"  ");
    at = put_reason(&mut out, at, told);
    at = put(&mut out, at, b"\n");
    flush(&out, at);
}

// How many headers there are.
fn count_headers(text: &[u8]) -> usize
    requires { verdict text.now ≡ Ok tt }
{
    for n in 0..HEADERS {
        if find_header(text, n).is_none() {
            return n;
        }
    }
    HEADERS
}

// Pairs of one base: those that are apart, and those of which it cannot be told.
#[derive(Clone, Copy)]
struct Pairs {
    apart: u64,
    open: u64,
}

// One pair more, and its line if it cannot be told.
fn take_pair(text: &[u8], a: usize, b: usize, pairs: Pairs) -> Pairs
    requires { verdict text.now ≡ Ok tt }
{
    let told = tell_numbers(text, a, b);
    if 3 < told {
        return pairs;
    }
    if told == 3 {
        return Pairs {
            apart: wrapping_add_u64(pairs.apart, 1),
            open: pairs.open,
        };
    }
    say_pair(text, a, b, told);
    Pairs {
        apart: pairs.apart,
        open: wrapping_add_u64(pairs.open, 1),
    }
}

// The pairs of each header and those after it.
fn take_all(text: &[u8], n: usize) -> Pairs
    requires { verdict text.now ≡ Ok tt }
{
    let mut pairs = Pairs { apart: 0, open: 0 };
    for a in 0..n {
        for b in a + 1..n {
            pairs = take_pair(text, a, b, pairs);
        }
    }
    pairs
}

// How many pairs of one base there are.
fn say_count(pairs: Pairs) {
    let mut out = io::buffer();
    let mut at = put_number(&mut out, 0, pairs.apart);
    at = put(&mut out, at, b" of ");
    at = put_number(&mut out, at, wrapping_add_u64(pairs.apart, pairs.open));
    at = put(&mut out, at, b" pairs of headers of one base are apart\n");
    flush(&out, at);
}

// The last line of the output where some pairs cannot be told.
fn end_open(n: u64) {
    io::write_all(
        STDOUT_FILENO,
        b"not harmless: headers that hold together would be told by their order\noverlaps ",
    );
    io::print_decimal(STDOUT_FILENO, n);
    io::write_all(STDOUT_FILENO, b"\n");
}

// What is told of an accepted text.
fn show_overlaps(text: &[u8])
    requires { verdict text.now ≡ Ok tt }
{
    let pairs = take_all(text, count_headers(text));
    say_count(pairs);
    if all_apart(text) {
        io::write_all(
            STDOUT_FILENO,
            b"harmless: no MPDU is held by two headers, and no order of the H blocks matters\n",
        );
        succeed();
        return;
    }
    end_open(pairs.open);
}

fn judge_text(name: &[u8], text: &[u8]) {
    match check_frame_text(text) {
        Ok(()) => show_overlaps(text),
        Err(refusal) => refuse_text(name, b"frame", refusal),
    }
}

// The text of a file. One too long for the block is too long for a text too.
fn judge_file<R: Files + Input>(name: &[u8], reader: &mut Reader<R>) {
    let mut block = io::large_buffer();
    let Got::Bytes(n) = files::input::read_file(reader, &mut block) else {
        fail_file(name, reader.error());
        return;
    };
    judge_text(name, &block[..n]);
}

// `tap overlaps FILE`.
pub fn tell_overlaps(rt: &(impl Env + Files + Input)) {
    if argument_count(rt) != 3 {
        fail(b"tap: overlaps takes one FILE, or - for standard input\n");
        return;
    }
    let mut name = io::buffer();
    let File::Open(mut reader, n) = open_argument(rt, 2, &mut name) else {
        return;
    };
    judge_file(&name[..n], &mut reader);
}
