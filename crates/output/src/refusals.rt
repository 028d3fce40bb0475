// The words that a refusal is shown by. All of them stand in one table, a line for each number, and a new case of `Refusal` doesn't compile before
// `line_of` has its line.
use crate::outcome::refuse;
use readers::line_fields::field_of;
use readers::lines::numbered_line;
use refusal::{MOST_FRAME, MOST_PAYLOAD, Refusal};
use std::num::wrapping_add_usize;
use writer::{Buffer, flush, put, put_number, put_spaces};

// Field 0 names a refusal, as why an MPDU has no name. Fields 1 and 2 make a sentence, with what the refusal carries between them; behind field 2
// stands the most that may be, where there is a field 3.
const WORDS: [u8; 795] = *b"no frame text\tits line \t is none of the forms
no frame text\tit passes a limit at line \t
no frame text\tits line \t belongs to nothing above it
over 2048 bytes\tit has \t bytes, and \t are the most
under 2 bytes\tit has \t bytes, and 2 are the least
no base header\tthere is no base header with its key, \t
no header holds\theaders that hold: \t
too many fields\tit has \t frames, more than there is room for
not a frame\tframes in it: \t
past the limit\ta total would pass 2^63 - 1, frames added: \t
no such field\trow \t is no such field
text too long\tit has \t bytes, more than there is room for
unknown firmware\tthere is no capture firmware \t, only 2 and 3
not such XML\tit is outside of what is read at byte \t
out of plain form\tits line \t stands out of plain form
not a listing\tline \t is not a line of a listing
";

fn line_of(refusal: Refusal) -> u64 {
    match refusal {
        Refusal::Form(_) => 1,
        Refusal::Limit(_) => 2,
        Refusal::Owner(_) => 3,
        Refusal::TooLong(_) => 4,
        Refusal::TooShort(_) => 5,
        Refusal::NoBase(_) => 6,
        Refusal::NoCandidate => 7,
        Refusal::MoreRows(_) => 8,
        Refusal::NotAFrame => 9,
        Refusal::PastLimit => 10,
        Refusal::NoSuchField(_) => 11,
        Refusal::MoreBytes(_) => 12,
        Refusal::Firmware(_) => 13,
        Refusal::Xml(_) => 14,
        Refusal::NotPlain(_) => 15,
        Refusal::Listing(_) => 16,
    }
}

fn words_of<'a>(words: &'a [u8], refusal: Refusal, k: usize) -> &'a [u8] {
    field_of(numbered_line(words, line_of(refusal)), k)
}

// The name of a refusal.
pub fn put_name(out: &mut Buffer, at: usize, refusal: Refusal) -> usize {
    put(out, at, words_of(&WORDS, refusal, 0))
}

// How many bytes a refusal's number has in brackets, with the space before.
fn bracketed(refusal: Refusal) -> usize {
    if refusal.number() < 10 { 4 } else { 5 }
}

// How many spaces bring `taken` bytes and `more` to a width.
fn padding(width: usize, taken: usize, more: usize) -> usize {
    width.saturating_sub(wrapping_add_usize(taken, more))
}

// A name between a mark and what it means, with the refusal's number behind it, at the left of a column.
fn put_between(
    out: &mut Buffer,
    at: usize,
    mark: &[u8],
    name: &[u8],
    refusal: Refusal,
    meaning: &[u8],
    width: usize,
) -> usize {
    let mut place = put(out, at, mark);
    place = put(out, place, name);
    place = put(out, place, b" (");
    place = put_number(out, place, refusal.number() as u64);
    place = put(out, place, b")");
    place = put(out, place, meaning);
    let taken = wrapping_add_usize(mark.len(), name.len());
    let more = wrapping_add_usize(bracketed(refusal), meaning.len());
    put_spaces(out, place, padding(width, taken, more))
}

// The name and the number of a refusal and what it means, at the left of a column.
pub fn put_meaning(
    out: &mut Buffer,
    at: usize,
    refusal: Refusal,
    meaning: &[u8],
    width: usize,
) -> usize {
    put_between(
        out,
        at,
        b"",
        words_of(&WORDS, refusal, 0),
        refusal,
        meaning,
        width,
    )
}

// Why an MPDU has no name, in words and with the refusal's number, at the left of a column.
pub fn put_short(out: &mut Buffer, at: usize, refusal: Refusal, width: usize) -> usize {
    put_between(
        out,
        at,
        b"  - ",
        words_of(&WORDS, refusal, 0),
        refusal,
        b"",
        width,
    )
}

// Says by which number a capture is refused, and why, with the last line of the output.
pub fn refuse_capture(refusal: Refusal) {
    let mut out = io::buffer();
    let mut at = put(&mut out, 0, b"the capture is refused by ");
    at = put_reason(&mut out, at, refusal, MOST_PAYLOAD as u64);
    at = put(&mut out, at, b"\n");
    flush(&out, at);
    refuse(refusal);
}

// By which number something is refused that may have so many bytes at most, and why.
fn put_reason(out: &mut Buffer, at: usize, refusal: Refusal, most: u64) -> usize {
    let words: &[u8] = &WORDS;
    let mut place = put_number(out, at, refusal.number() as u64);
    place = put(out, place, b": ");
    place = put(out, place, words_of(words, refusal, 1));
    place = put_number(out, place, refusal.carried() as u64);
    place = put(out, place, words_of(words, refusal, 2));
    let behind = words_of(words, refusal, 3);
    if behind.is_empty() {
        return place;
    }
    place = put_number(out, place, most);
    put(out, place, behind)
}

// By which number a payload is refused, and why.
pub fn put_payload_reason(out: &mut Buffer, at: usize, refusal: Refusal) -> usize {
    put_reason(out, at, refusal, MOST_PAYLOAD as u64)
}

// By which number an MPDU is refused, and why.
pub fn put_mpdu_reason(out: &mut Buffer, at: usize, refusal: Refusal) -> usize {
    put_reason(out, at, refusal, MOST_FRAME as u64)
}
