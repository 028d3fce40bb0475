// What no capture has tried of a frame text, one a line: a field behind its owner and by its path, a symbol behind its set. Of a kind of frame that was
// never tried the fields are left out.
use crate::lines_page::{
    REFUSALS, Walk, put_count, put_header, put_owner, put_refusal, refusal_count,
};
use coverage::COUNTS;
use readers::line_fields::field_of;
use readers::lines::{line, next_line};
use writer::{Buffer, put, put_byte};

// Is this the digit of a P line's level?
fn is_level(row: &[u8], digit: u8) -> bool {
    field_of(row, 1).first() == Some(&digit)
}

// Where the last P line of a level begins between two places.
fn last_of_level(text: &[u8], from: usize, end: usize, digit: u8) -> Option<usize> {
    let mut found = None;
    let mut at = from;
    while at < text.len() && at < end {
        if text[at] == b'P' && is_level(line(text, at), digit) {
            found = Some(at);
        }
        at = next_line(text, at);
    }
    found
}

// The path of the P line at a place, whose owner's line begins at another.
fn put_path(out: &mut Buffer, before: usize, text: &[u8], owner: usize, at: usize) -> usize {
    let row = line(text, at);
    let mut place = before;
    for digit in b'0'..b'8' {
        if is_level(row, digit) {
            return put(out, place, field_of(row, 5));
        }
        let above = last_of_level(text, owner, at, digit).unwrap_or(at);
        place = put(out, place, field_of(line(text, above), 5));
        place = put_byte(out, place, b'.');
    }
    place
}

// The line at a place, which was never tried.
fn put_untried(out: &mut Buffer, before: usize, text: &[u8], owner: usize, at: usize) -> usize {
    let row = line(text, at);
    let mut place = put_count(out, before, 0);
    let Some(&kind) = row.first() else {
        return place;
    };
    if kind == b'H' {
        place = put_header(out, place, row);
        return put_byte(out, place, b'\n');
    }
    place = put_owner(out, place, line(text, owner));
    place = put(out, place, b": ");
    if kind == b'P' {
        place = put_path(out, place, text, owner, at);
    } else {
        place = put(out, place, field_of(row, 2));
    }
    put_byte(out, place, b'\n')
}

// Is this the kind of a line that P or E lines stand under?
fn is_owner(kind: u8) -> bool {
    matches!(kind, b'B' | b'H' | b'D')
}

fn put_refusals(counts: &[u64; COUNTS], out: &mut Buffer, before: usize) -> usize {
    let mut place = before;
    for refusal in REFUSALS {
        let number = refusal.number() as usize;
        if refusal_count(counts, number) == 0 {
            place = put_refusal(out, place, number, 0);
        }
    }
    place
}

// All that was never tried, and an empty line.
pub fn put_missing(text: &[u8], counts: &[u64; COUNTS], out: &mut Buffer, before: usize) -> usize {
    let mut place = before;
    let mut walk = Walk::new();
    let mut owner: usize = 0;
    let mut is_hidden = false;
    let mut at: usize = 0;
    while at < text.len() {
        let kind = text[at];
        if is_owner(kind) {
            owner = at;
            is_hidden = false;
        }
        if walk.count(counts, kind) == Some(0) {
            if !is_hidden {
                place = put_untried(out, place, text, owner, at);
            }
            is_hidden = is_hidden || kind == b'H';
        }
        walk = walk.behind(kind);
        at = next_line(text, at);
    }
    place = put_refusals(counts, out, place);
    put_byte(out, place, b'\n')
}
