// What is wrong with the form of a line of a definition text: an author is told this where the line is refused by 1.
ghost use Rattle.std.specs.Prelude.{◌≡◌};
ghost use Rattle.text.specs.Text.{fields};
ghost use Rattle.text_faults.specs.Form.{want_of};
ghost use Rattle.text_faults.specs.Advice.{first_fault, by_count, after, advice_on, frame_advice, command_advice, frame_line, command_line};

use crate::fault::{Fault, Want};
use crate::line_form::{command_count, frame_count, want_of};
use readers::line_fields::{count_pieces, find_piece, letter_of};
use text::find;

// What is wrong with the form of a line.
#[derive(Clone, Copy)]
pub enum Advice {
    Fine,
    // Nothing stands on it.
    Empty,
    // No 0x0A ends it.
    Unended,
    // Its first field is no letter of such a text.
    Letter,
    // It has so many fields after its letter, and its form has as many as the second number.
    Count(usize, usize),
    // This field, from 1 after the letter, isn't what it must be.
    Field(usize, Want, Fault),
}

// What is wrong with the first of the fields of s that has a fault, where the first of all is field 1 of a line with this letter.
fn first_fault(letter: u8, s: &[u8]) -> Advice
    ensures { result ≡ first_fault (want_of letter) 1 (fields s.now) }
{
    let mut at = 0;
    let mut k = 1;
    loop {
        let rest = &s[at..];
        let e = find(rest, 9);
        let want = want_of(letter, k);
        let fault = crate::fault::find_fault(want, &rest[..e]);
        if !fault.is_right() {
            return Advice::Field(k, want, fault);
        }
        if e == rest.len() {
            return Advice::Fine;
        }
        at = at + e + 1;
        k += 1;
    }
}

// What is wrong with the fields of s, which are n after this letter.
fn advise_fields(letter: u8, n: usize, s: &[u8]) -> Advice
    ensures { result ≡ by_count (want_of letter) n (fields s.now) }
{
    let has = count_pieces(s, 9);
    if has != n {
        return Advice::Count(has, n);
    }
    first_fault(letter, s)
}

// What is wrong with a line with this letter, which n fields must follow; 0 where no form has the letter.
fn advise(letter: u8, n: usize, line: &[u8]) -> Advice
    ensures { result ≡ advice_on (want_of letter) n (after (fields line.now)) }
{
    if n == 0 {
        return Advice::Letter;
    }
    let e = find(line, 9);
    if e == line.len() {
        return Advice::Count(0, n);
    }
    let a = e + 1;
    advise_fields(letter, n, &line[a..])
}

// What is wrong with the form of a line of a frame text, given without its 0x0A.
pub fn advise_frame(line: &[u8]) -> Advice
    ensures { result ≡ frame_advice line.now }
{
    if line.is_empty() {
        return Advice::Empty;
    }
    let letter = letter_of(line);
    advise(letter, frame_count(letter), line)
}

// The same of a command text.
pub fn advise_command(line: &[u8]) -> Advice
    ensures { result ≡ command_advice line.now }
{
    if line.is_empty() {
        return Advice::Empty;
    }
    let letter = letter_of(line);
    advise(letter, command_count(letter), line)
}

// What is wrong with the form of line k of a frame text, from 0.
pub fn advise_frame_line(text: &[u8], k: usize) -> Advice
    ensures { result ≡ frame_line text.now k }
{
    let part = find_piece(text, 10, k);
    let a = part.start;
    let e = a + part.len;
    if e == text.len() {
        return Advice::Unended;
    }
    advise_frame(&text[a..e])
}

// The same of a command text.
pub fn advise_command_line(text: &[u8], k: usize) -> Advice
    ensures { result ≡ command_line text.now k }
{
    let part = find_piece(text, 10, k);
    let a = part.start;
    let e = a + part.len;
    if e == text.len() {
        return Advice::Unended;
    }
    advise_command(&text[a..e])
}
