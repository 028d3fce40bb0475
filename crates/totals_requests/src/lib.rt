// The request on the totals of a capture.
#![tactic(auto, using(crate::proofs::Laws::laws))]

use answer::table::{BYTE, put_written};
use libtap::TapAnswer;
use libtap::captures::{tap_add_payload, tap_print_totals};
use request::{read_bytes, read_two};
use text::find;
use totals::TOTALS;
use writer::{Buffer, put, put_byte, put_number};

// The most bytes of a text of totals, and more.
const ROOM: usize = 32768;

// How the payloads are read: the firmware that wrote them, whether beams are a family of their own, and the region.
#[derive(Clone, Copy)]
struct By {
    firmware: usize,
    family: bool,
    region: u64,
}

// Do all words, one space between two of them, say bytes?
fn are_bytes(words: &[u8], bytes: &mut [u8]) -> bool {
    let mut at: usize = 0;
    loop {
        let rest = &words[at..];
        let e = find(rest, b' ');
        let Some(_) = read_bytes(&rest[..e], bytes) else {
            return false;
        };
        if e == rest.len() {
            return true;
        }
        at = at + e + 1;
    }
}

// `ok`, or the refusal's number and what it carries.
fn put_added(out: &mut Buffer, used: usize, added: TapAnswer) -> usize {
    if added.refusal == 0 {
        return put(out, used, b" ok");
    }
    let space = put_byte(out, used, b' ');
    let number = put_number(out, space, added.refusal);
    let colon = put_byte(out, number, b':');
    put_number(out, colon, added.value)
}

// Adds the payloads that the words say, one after the other, and tells how each went.
fn add_all(
    words: &[u8],
    text: &[u8],
    by: By,
    payload: &mut [u8],
    totals: &mut [u64; TOTALS],
    out: &mut Buffer,
    used: usize,
) -> usize {
    let mut m = used;
    let mut at: usize = 0;
    loop {
        let rest = &words[at..];
        let e = find(rest, b' ');
        let Some(n) = read_bytes(&rest[..e], payload) else {
            return m;
        };
        let added = tap_add_payload(
            text,
            by.region,
            by.firmware,
            by.family,
            &payload[..n],
            totals,
        );
        m = put_added(out, m, added);
        if e == rest.len() {
            return m;
        }
        at = at + e + 1;
    }
}

// The text of the totals.
fn put_totals(out: &mut Buffer, used: usize, totals: &[u64; TOTALS]) -> usize {
    let mut buffer = [BYTE; ROOM];
    let written = tap_print_totals(totals, &mut buffer);
    put_written(out, used, b" ", written.refusal, written.value, &buffer)
}

// The payloads of the words, added to totals that all start at a number.
fn answer_totals(
    words: &[u8],
    text: &[u8],
    start: u64,
    by: By,
    payload: &mut [u8],
    out: &mut Buffer,
    used: usize,
) -> usize {
    let mut totals = [start; TOTALS];
    let m = put(out, used, b"totals");
    let e = add_all(words, text, by, payload, &mut totals, out, m);
    put_totals(out, e, &totals)
}

// `TEXT PAYLOAD ..`, at least one payload
fn answer_words(
    words: &[u8],
    start: u64,
    by: By,
    bytes: &mut [u8],
    out: &mut Buffer,
    used: usize,
) -> Option<usize> {
    let e = find(words, b' ');
    if e == words.len() {
        return None;
    }
    let n = read_bytes(&words[..e], bytes)?;
    let mut payload = [0u8; 262144];
    let payloads = &words[e + 1..];
    if are_bytes(payloads, &mut payload) {
        return Some(answer_totals(payloads, &bytes[..n], start, by, &mut payload, out, used));
    }
    None
}

// `totals START FIRMWARE READING REGION TEXT PAYLOAD ..`
pub fn totals(words: &[u8], bytes: &mut [u8], out: &mut Buffer, used: usize) -> Option<usize> {
    let (start, firmware, at) = read_two(words)?;
    let others = &words[at..];
    let (reading, region, from) = read_two(others)?;
    if 1 < reading {
        return None;
    }
    let by = By {
        firmware: firmware as usize,
        family: reading == 1,
        region,
    };
    answer_words(&others[from..], start, by, bytes, out, used)
}
