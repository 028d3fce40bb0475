// Requests in, answers out, to the end of the input.
ghost use Rattle.answer.specs.Table.{Ample};
ghost use Rattle.replay.specs.Input.{In};
ghost use Rattle.replay.specs.Serve.{Goes};

use crate::definitions::{commandtext, frametext, tidy};
use crate::input::{Filled, Found, Input};
use crate::mpdu::{bits, checksum};
use frame_requests::frame_request;
use listing_requests::listing;
use node_requests::{commandnodes, headernodes};
use request::{Word, word_of};
use std::io::Read;
use text::find;
use totals_requests::totals;
use value_requests::{commandvalue, headervalue};
use walk_requests::{command, commandby, header};
use writer::{Buffer, flush, put, put_byte};
use xml_requests::turned;

// A proved loop has to end, and nothing says that the input does. So the turns are counted down from 2^62, which no run
// uses up: at a thousand million a second it would take more than a hundred years.
const TURNS: u64 = 0x4000000000000000;

// How it goes on: with what waits of the input and how much of the output, or not at all.
#[derive(Clone, Copy)]
enum Turn {
    Next(Input, usize),
    End,
}

// Answers a request that starts with a word and needs no table.
fn answer_word(
    word: Word,
    words: &[u8],
    bytes: &mut [u8],
    out: &mut Buffer,
    used: usize,
) -> Option<usize> {
    match word {
        Word::Frametext => frametext(words, bytes, out, used),
        Word::Commandtext => commandtext(words, bytes, out, used),
        Word::Tidy => tidy(words, bytes, out, used),
        Word::Bits => bits(words, bytes, out, used),
        Word::Checksum => checksum(words, bytes, out, used),
        Word::Headernodes => headernodes(words, bytes, out, used),
        Word::Commandnodes => commandnodes(words, bytes, out, used),
        Word::Headervalue => headervalue(words, bytes, out, used),
        Word::Commandvalue => commandvalue(words, bytes, out, used),
        Word::Listing => listing(words, bytes, out, used),
        Word::Totals => totals(words, bytes, out, used),
        Word::Xml => turned(words, false, bytes, out, used),
        Word::Unxml => turned(words, true, bytes, out, used),
        _ => frame_request(word, words, bytes, out, used),
    }
}

// Answers a request. Every one has two words or more.
fn answer(
    line: &[u8],
    bytes: &mut [u8],
    rows: &mut [u64],
    out: &mut Buffer,
    used: usize,
) -> Option<usize>
    requires { Ample rows.old }
{
    let e = find(line, b' ');
    if e == line.len() {
        return None;
    }
    let words = &line[e + 1..];
    let word = word_of(&line[..e]);
    match word {
        Word::Header => header(words, bytes, rows, out, used),
        Word::Command => command(words, bytes, rows, out, used),
        Word::Commandby => commandby(words, bytes, rows, out, used),
        _ => answer_word(word, words, bytes, out, used),
    }
}

fn put_bad(out: &mut Buffer, used: usize) -> usize {
    put(out, used, b"bad request\n")
}

fn answer_line(
    line: &[u8],
    bytes: &mut [u8],
    rows: &mut [u64],
    out: &mut Buffer,
    used: usize,
) -> usize
    requires { Ample rows.old }
{
    match answer(line, bytes, rows, out, used) {
        Some(n) => put_byte(out, n, b'\n'),
        None => put_bad(out, used),
    }
}

// Writes out what waits, so that whoever waits for the answers has them, and reads on. A request is ended by 0x0A: what the
// end of the input cuts off before it is a line, and a bad request.
fn read_on(
    input: Input,
    reader: &mut impl Read,
    lines: &mut [u8],
    out: &mut Buffer,
    used: usize,
) -> Turn
    requires { In lines.old input }
    ensures { Goes lines.new result }
{
    flush(out, used);
    match input.fill(reader, lines) {
        Filled::More(next) => Turn::Next(next, 0),
        Filled::TooLong(next) => Turn::Next(next, put_bad(out, 0)),
        Filled::Cut => {
            let n = put_bad(out, 0);
            flush(out, n);
            Turn::End
        }
        Filled::End => Turn::End,
    }
}

fn step(
    input: Input,
    reader: &mut impl Read,
    lines: &mut [u8],
    bytes: &mut [u8],
    rows: &mut [u64],
    out: &mut Buffer,
    used: usize,
) -> Turn
    requires fact { In lines.old input }
    requires ample { Ample rows.old }
    ensures { Goes lines.new result }
{
    match input.next_line(lines) {
        Found::Line(from, to, next) => {
            let n = answer_line(&lines[from..to], bytes, rows, out, used);
            Turn::Next(next, n)
        }
        Found::Rest(next) => Turn::Next(next, used),
        Found::More(next) => read_on(next, reader, lines, out, used),
    }
}

pub fn serve(
    reader: &mut impl Read,
    lines: &mut [u8; 524288],
    bytes: &mut [u8; 262144],
    rows: &mut [u64; 163840],
    out: &mut Buffer,
) {
    let mut input = Input::empty(false);
    let mut used: usize = 0;
    for _ in 0..TURNS {
        let Turn::Next(next, n) = step(input, reader, lines, bytes, rows, out, used) else {
            return;
        };
        input = next;
        used = n;
    }
}
