// What is wrong with a line of a definition text, and what would be right: a sentence for each way in which the check refuses a line.
use crate::form_words::{say_fault, say_field, say_fields, say_piece, say_want};
use output::prose::{say, say_number, show};
use readers::line_fields::{field_of, letter_of};
use readers::lines::find_line;
use text_faults::advice::Advice;
use text_faults::fault::{Fault, Want};
use text_faults::line_form::{command_count, frame_count};
use text_faults::placement::{
    Misplaced, command_misplaced, frame_misplaced, is_too_deep, shift_field,
};

// A line that doesn't begin with a letter of its text.
fn say_letter(line: &[u8], letters: &[u8], is_of_other: bool) {
    say(b"its first field is '");
    show(field_of(line, 0));
    say(b"'; write one of the letters ");
    say(letters);
    say(b", with a tab after it");
    if is_of_other {
        say(b" (such a line belongs in a text of the other kind)");
    }
}

fn say_count(letter: u8, has: usize, wanted: usize) {
    let one = [letter];
    say(b"it has ");
    say_number(has);
    if has == 1 {
        say(b" field after the ");
    } else {
        say(b" fields after the ");
    }
    show(&one);
    say(b"; write ");
    say_number(wanted);
    say(b", with one tab before each: ");
    say_fields(letter, wanted);
}

// Which field it is, and what stands in it.
fn say_content(line: &[u8], k: usize) {
    say(b"field ");
    say_number(k);
    say(b", ");
    say_field(letter_of(line), k);
    say(b", is '");
    show(field_of(line, k));
    say(b"'");
}

fn say_field_fault(line: &[u8], k: usize, want: Want, fault: Fault) {
    say_content(line, k);
    say(b": ");
    say_fault(fault, field_of(line, k));
    say(b"; write ");
    say_want(want);
}

// Refusal 1, by what is wrong with the form.
fn say_form(advice: Advice, line: &[u8], letters: &[u8], is_of_other: bool) {
    let words: &[u8] =
        b"its form is right\tit is empty; take it out, since each line must be a record\t\
        nothing ends it; end each line, the last too, with a line feed, 0x0a";
    match advice {
        Advice::Fine => say_piece(words, 0),
        Advice::Empty => say_piece(words, 1),
        Advice::Unended => say_piece(words, 2),
        Advice::Letter => say_letter(line, letters, is_of_other),
        Advice::Count(has, wanted) => say_count(letter_of(line), has, wanted),
        Advice::Field(k, want, fault) => say_field_fault(line, k, want, fault),
    }
}

pub fn say_frame_form(advice: Advice, line: &[u8]) {
    let is_of_other = command_count(letter_of(line)) != 0;
    say_form(advice, line, b"F, B, H, P, V, D, E", is_of_other);
}

pub fn say_command_form(advice: Advice, line: &[u8]) {
    let is_of_other = frame_count(letter_of(line)) != 0;
    say_form(advice, line, b"Q, G, R, A, T, S, U, K, M", is_of_other);
}

// A number that is over 7.
fn say_too_great(line: &[u8], k: usize) {
    say_content(line, k);
    say(b": it is too great; write a number from 0 to 7");
}

// By which limit a line of a frame text is one too many.
fn say_most(letter: u8) {
    let words: &[u8] = b"F\tit is the 17th F, and 16 are the most
B\tit is the 17th B, and 16 are the most
H\tit is the 65th H, and 64 are the most
P\tit is the 65th P of its B or H, and 64 are the most
V\tit is the 17th V of its H, and 16 are the most
D\tit is the 17th D, and 16 are the most
E\tit is the 65th E of its D, and 64 are the most
";
    say_piece(find_line(words, letter, 0), 1);
}

// Refusal 2, of a line of a frame text.
pub fn say_frame_limit(line: &[u8]) {
    let letter = letter_of(line);
    if letter == b'P' && is_too_deep(line) {
        say_too_great(line, 1);
        return;
    }
    say_most(letter);
}

// The same, of a command text.
pub fn say_command_limit(line: &[u8]) {
    match letter_of(line) {
        b'Q' | b'G' => say(b"it is the 257th Q or G, and 256 are the most"),
        _ => say(b"it is the 33rd line under its Q, and 32 are the most"),
    }
}

// Refusal 3, of a line with no owner.
fn say_owner(letter: u8) {
    let words: &[u8] =
        b"it belongs to the last F, B, H or D above it, and that must be a B or an H\t\
        it belongs to the last F, B, H or D above it, and that must be an H\t\
        it belongs to the last F, B, H or D above it, and that must be a D\t\
        its level is 1, so there must be a G above it, with no Q of level 0 between\t\
        it belongs to the last Q or G above it, and that must be a Q";
    let k: usize = match letter {
        b'P' => 0,
        b'V' => 1,
        b'E' => 2,
        b'Q' => 3,
        _ => 4,
    };
    say_piece(words, k);
}

fn say_parent(line: &[u8]) {
    say(b"its level is ");
    show(field_of(line, 1));
    say(
        b", so there must be a P of the level before above it, with no P of a lower level and no F, B, H or D between",
    );
}

fn say_size_path(line: &[u8]) {
    say_content(line, 8);
    say(b": only a P of level 0 may have a size path; write -");
}

fn say_misplaced(why: Misplaced, line: &[u8]) {
    match why {
        Misplaced::Owner => say_owner(letter_of(line)),
        Misplaced::Parent => say_parent(line),
        Misplaced::SizePath => say_size_path(line),
        Misplaced::Shift => say_too_great(line, shift_field(letter_of(line))),
    }
}

// Refusal 3, of a line of a frame text.
pub fn say_frame_owner(line: &[u8]) {
    say_misplaced(frame_misplaced(line), line);
}

// The same, of a command text.
pub fn say_command_owner(line: &[u8]) {
    say_misplaced(command_misplaced(line), line);
}
