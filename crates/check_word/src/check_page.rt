// What `tap check` says of a definition text, with the last line of the output.
use crate::check_words::{
    say_command_form, say_command_limit, say_command_owner, say_frame_form, say_frame_limit,
    say_frame_owner,
};
use command_text::check_command_text;
use frame_text::check_frame_text;
use output::prose::{say, say_number, show};
use readers::line_fields::{find_piece, letter_of};
use refusal::Refusal;
use text::find;
use text_faults::advice::{advise_command_line, advise_frame_line};
use text_faults::line_form::{command_count, frame_count};

// Which of the two texts.
#[derive(Clone, Copy)]
pub enum Kind {
    Frame,
    Command,
}

fn word_of(kind: Kind) -> &'static [u8] {
    match kind {
        Kind::Frame => b"frame",
        Kind::Command => b"command",
    }
}

// What a text is taken for: the first line that begins with a letter of one of them decides. An empty text is that of a
// command without parameters.
pub fn kind_of(text: &[u8]) -> Option<Kind> {
    if text.is_empty() {
        return Some(Kind::Command);
    }
    let mut at = 0;
    loop {
        let rest = &text[at..];
        let e = find(rest, 10);
        let letter = letter_of(&rest[..e]);
        if frame_count(letter) != 0 {
            return Some(Kind::Frame);
        }
        if command_count(letter) != 0 {
            return Some(Kind::Command);
        }
        if e == rest.len() {
            return None;
        }
        at = at + e + 1;
    }
}

// A line of a text, from 1, without its end.
fn line_of(text: &[u8], line: usize) -> &[u8] {
    let part = find_piece(text, 10, line.saturating_sub(1));
    let a = part.start;
    let e = a + part.len;
    &text[a..e]
}

// How many lines of a text begin with the letter.
fn count_lines(text: &[u8], letter: u8) -> usize {
    let mut n = 0;
    let mut at = 0;
    loop {
        let rest = &text[at..];
        let e = find(rest, 10);
        if e == rest.len() {
            return n;
        }
        if letter_of(&rest[..e]) == letter {
            n += 1;
        }
        at = at + e + 1;
    }
}

// How many lines of a text begin with a letter, if any do. Answers whether any were told of yet.
fn say_tally(text: &[u8], letter: u8, is_told: bool) -> bool {
    let one = [letter];
    let n = count_lines(text, letter);
    if n == 0 {
        return is_told;
    }
    if is_told {
        say(b",");
    }
    say(b" ");
    say_number(n);
    say(b" ");
    say(&one);
    true
}

// The same for each of these letters.
fn say_tallies(text: &[u8], letters: &[u8]) {
    let mut is_told = false;
    for &letter in letters {
        is_told = say_tally(text, letter, is_told);
    }
}

fn say_lines(text: &[u8], letters: &[u8]) {
    if text.is_empty() {
        say(b" no");
        return;
    }
    say_tallies(text, letters);
}

fn say_accepted(name: &[u8], kind: Kind, text: &[u8], letters: &[u8]) {
    show(name);
    say(b" is an accepted ");
    say(word_of(kind));
    say(b" text:");
    say_lines(text, letters);
    say(b" lines\n");
}

// What to do about the U lines of a command text, if it has any.
fn say_retired(text: &[u8]) {
    let n = count_lines(text, b'U');
    if n == 0 {
        return;
    }
    say(b"  U lines: ");
    say_number(n);
    say(b". A U is read as an S, and new texts use S: 'tap tidy FILE' writes the text so.\n");
}

// By which number a line is refused, and the line.
fn say_line(name: &[u8], kind: Kind, refusal: Refusal, line: &[u8]) {
    show(name);
    say(b", taken for a ");
    say(word_of(kind));
    say(b" text, is refused by ");
    say_number(refusal.number() as usize);
    say(b" at line ");
    say_number(refusal.carried());
    say(b":\n  ");
    if !line.is_empty() {
        show(line);
        say(b"\n  ");
    }
}

fn say_too_long(name: &[u8]) {
    show(name);
    say(
        b" is refused by 2: it has more than 60000 bytes, the most that a definition text may have",
    );
}

fn say_form(kind: Kind, text: &[u8], k: usize, line: &[u8]) {
    match kind {
        Kind::Frame => say_frame_form(advise_frame_line(text, k), line),
        Kind::Command => say_command_form(advise_command_line(text, k), line),
    }
}

fn say_limit(kind: Kind, line: &[u8]) {
    match kind {
        Kind::Frame => say_frame_limit(line),
        Kind::Command => say_command_limit(line),
    }
}

fn say_owner(kind: Kind, line: &[u8]) {
    match kind {
        Kind::Frame => say_frame_owner(line),
        Kind::Command => say_command_owner(line),
    }
}

// Why a line is refused. No text is refused by a number above 3.
fn say_reason(kind: Kind, text: &[u8], refusal: Refusal, line: &[u8]) {
    match refusal {
        Refusal::Form(n) => say_form(kind, text, n.saturating_sub(1), line),
        Refusal::Limit(_) => say_limit(kind, line),
        Refusal::Owner(_) => say_owner(kind, line),
        _ => {}
    }
}

// By which number a text is refused, and why.
fn say_refusal(name: &[u8], kind: Kind, text: &[u8], refusal: Refusal) {
    if refusal.carried() == 0 {
        say_too_long(name);
        return;
    }
    let line = line_of(text, refusal.carried());
    say_line(name, kind, refusal, line);
    say_reason(kind, text, refusal, line);
}

// What is said of a text that is refused, with the last line of the output.
fn refuse_kind(name: &[u8], kind: Kind, text: &[u8], refusal: Refusal) {
    say_refusal(name, kind, text, refusal);
    say(b"\n");
    output::outcome::refuse(refusal);
}

// What is said of a text that is taken for a frame text.
pub fn check_frame(name: &[u8], text: &[u8]) {
    if let Err(refusal) = check_frame_text(text) {
        refuse_kind(name, Kind::Frame, text, refusal);
        return;
    }
    say_accepted(name, Kind::Frame, text, b"FBHPVDE");
    output::outcome::succeed();
}

// The same of a command text.
pub fn check_command(name: &[u8], text: &[u8]) {
    if let Err(refusal) = check_command_text(text) {
        refuse_kind(name, Kind::Command, text, refusal);
        return;
    }
    say_accepted(name, Kind::Command, text, b"QGRATSUKM");
    say_retired(text);
    output::outcome::succeed();
}
