// Totals as a table that a person reads: kinds of frame by rate, their shares, and what the rest is.
ghost use Rattle.std.specs.Prelude.{◌≡◌};
ghost use Rattle.readers.specs.Lines.{lines_in, of_kind};
ghost use Rattle.totals_word.specs.Words.{share_of, name_in};

use output::refusals::put_meaning;
use readers::line_fields::field_of;
use readers::lines::{line, next_line};
use readers::numeral::is_number;
use refusal::Refusal;
use std::num::{wrapping_add_u64, wrapping_add_usize};
use totals::{BEAMS, BYTES, RATE_COUNT, REFUSED, REPEATS, TOTALS, WRONG};
use writer::{Buffer, put, put_byte, put_left, put_marked, put_number, put_spaces};

// The widths of the column of names and of one of numbers.
const NAMES: usize = 28;

const NUMBERS: usize = 10;

// The keys that there are.
const KEYS: usize = 256;

fn total(totals: &[u64; TOTALS], at: usize) -> u64 {
    totals.get(at).copied().unwrap_or(0)
}

// Those of so many places from one on, together.
fn sum(totals: &[u64; TOTALS], from: usize, count: usize) -> u64 {
    let mut all: u64 = 0;
    for i in 0..count {
        all = wrapping_add_u64(all, total(totals, wrapping_add_usize(from, i)));
    }
    all
}

// The frames that have a name.
fn answered(totals: &[u64; TOTALS]) -> u64 {
    sum(totals, 0, WRONG)
}

fn refused(totals: &[u64; TOTALS]) -> u64 {
    sum(totals, REFUSED + 5, 3)
}

fn frames(totals: &[u64; TOTALS]) -> u64 {
    let named = wrapping_add_u64(answered(totals), total(totals, BEAMS));
    wrapping_add_u64(named, refused(totals))
}

// n of all, in thousandths.
fn share(n: u64, all: u64) -> u64
    ensures { result ≡ share_of n all }
{
    if all == 0 {
        return 0;
    }
    if n <= 18446744073709551 {
        return n * 1000 / all;
    }
    if all < 1000 {
        return 0;
    }
    n / (all / 1000)
}

// Thousandths as per cent, with one digit behind the point.
fn put_percent(out: &mut Buffer, at: usize, thousandths: u64) -> usize {
    let mut place = put_number(out, at, thousandths / 10);
    place = put_byte(out, place, b'.');
    place = put_number(out, place, thousandths % 10);
    put_byte(out, place, b'%')
}

// How many spaces bring a share to the right of its column.
fn blanks_before(thousandths: u64) -> usize {
    if thousandths < 100 {
        return NUMBERS - 4;
    }
    if thousandths < 1000 {
        return NUMBERS - 5;
    }
    NUMBERS - 6
}

// A share at the right of its column.
fn put_share(out: &mut Buffer, at: usize, n: u64, all: u64) -> usize {
    let thousandths = share(n, all);
    let place = put_spaces(out, at, blanks_before(thousandths));
    put_percent(out, place, thousandths)
}

// A count and its share, and the end of the line.
fn put_all(out: &mut Buffer, at: usize, n: u64, all: u64) -> usize {
    let mut place = put_marked(out, at, b"", n, NUMBERS);
    place = put_share(out, place, n, all);
    put_byte(out, place, b'\n')
}

// The name of the first H line with a key.
fn name_of(text: &[u8], key: usize) -> &[u8]
    ensures { result.now ≡ name_in key (of_kind 0x48 (lines_in text.now)) }
{
    let mut at: usize = 0;
    while at < text.len() {
        if text[at] == b'H' && is_number(field_of(line(text, at), 1), key) {
            return field_of(line(text, at), 4);
        }
        at = next_line(text, at);
    }
    &text[..0]
}

// The counts of a key at each rate.
fn put_rates(totals: &[u64; TOTALS], from: usize, out: &mut Buffer, at: usize) -> usize {
    let mut place = at;
    for rate in 0..RATE_COUNT {
        let n = total(totals, wrapping_add_usize(from, rate));
        place = put_marked(out, place, b"", n, NUMBERS);
    }
    place
}

// The line of a kind of frame, if it was heard.
fn put_kind(
    text: &[u8],
    totals: &[u64; TOTALS],
    key: usize,
    all: u64,
    out: &mut Buffer,
    at: usize,
) -> usize {
    if KEYS <= key {
        return at;
    }
    let from = key * RATE_COUNT;
    let heard = sum(totals, from, RATE_COUNT);
    if heard == 0 {
        return at;
    }
    let named = put_left(out, at, name_of(text, key), NAMES);
    let place = put_rates(totals, from, out, named);
    put_all(out, place, heard, all)
}

fn put_kinds(text: &[u8], totals: &[u64; TOTALS], all: u64, out: &mut Buffer, at: usize) -> usize {
    let mut place = at;
    for key in 0..KEYS {
        place = put_kind(text, totals, key, all, out, place);
    }
    place
}

// A line without counts by rate.
fn put_line(out: &mut Buffer, at: usize, what: &[u8], n: u64, all: u64) -> usize {
    let place = put_left(out, at, what, NAMES + 4 * NUMBERS);
    put_all(out, place, n, all)
}

// A refusal, and what it means.
fn put_refusal(
    totals: &[u64; TOTALS],
    refusal: Refusal,
    meaning: &[u8],
    all: u64,
    out: &mut Buffer,
    at: usize,
) -> usize {
    let place = put_meaning(out, at, refusal, meaning, NAMES + 4 * NUMBERS);
    let n = total(totals, REFUSED + refusal.number() as usize);
    put_all(out, place, n, all)
}

// What was refused.
fn put_refused(totals: &[u64; TOTALS], all: u64, out: &mut Buffer, at: usize) -> usize {
    let short = put_refusal(
        totals,
        Refusal::TooShort(0),
        b": damaged on the air",
        all,
        out,
        at,
    );
    let unbased = put_refusal(
        totals,
        Refusal::NoBase(0),
        b": no definitions for that region and rate",
        all,
        out,
        short,
    );
    put_refusal(
        totals,
        Refusal::NoCandidate,
        b": an unknown kind of frame, or a damaged one",
        all,
        out,
        unbased,
    )
}

// A word and a number behind it, and the end of the line.
fn put_said(out: &mut Buffer, at: usize, what: &[u8], n: u64) -> usize {
    let mut place = put(out, at, what);
    place = put_number(out, place, n);
    put_byte(out, place, b'\n')
}

// Of how many of the frames with a name the checksum is wrong.
fn put_wrong(totals: &[u64; TOTALS], out: &mut Buffer, at: usize) -> usize {
    let mut place = put(out, at, b"checksum wrong: ");
    place = put_number(out, place, total(totals, WRONG));
    place = put(out, place, b" of the frames with a name (");
    place = put_percent(out, place, share(total(totals, WRONG), answered(totals)));
    put(out, place, b")\n")
}

// The table.
pub fn put_page(text: &[u8], totals: &[u64; TOTALS], out: &mut Buffer) -> usize {
    let all = frames(totals);
    let mut at = put(
        out,
        0,
        b"                              9.6 kbit   40 kbit  100 kbit    Long R       all     share\n",
    );
    at = put_kinds(text, totals, all, out, at);
    at = put_line(out, at, b"beams", total(totals, BEAMS), all);
    at = put_refused(totals, all, out, at);
    at = put_line(out, at, b"frames", all, all);
    at = put_wrong(totals, out, at);
    at = put_said(out, at, b"repetitions of beams: ", total(totals, REPEATS));
    put_said(out, at, b"bytes of all frames: ", total(totals, BYTES))
}
