// What frames have tried of a frame text: CV1 to CV4 of docs/RULES.md. A count for each H, P and E line and for each refusal of a header, raised frame by
// frame in counts that the caller lends.
#![tactic(auto, using(crate::proofs::Laws::laws))]

ghost use Rattle.std.specs.Prelude.{◌≡◌, ◌+◌, ◌*◌, ◌≤◌, length, Ok};
ghost use Rattle.frame_text.specs.Rules.{verdict};
ghost use Rattle.refusal.specs.Refusal.{number_of};
ghost use Rattle.header_rules.specs.Table.{row_width};
ghost use Rattle.coverage.specs.Coverage.{size, place_in, entry_place, refused_place, set_at, row_places, rows_from, raised, raised_all, frame_places};

use header::{MOST_NUMBERS, decode_accepted};
use header_rows::{NUMBER, ROW_WIDTH, SYMBOL};
use refusal::Refusal;
use totals::MOST;

// The most lines of a kind that a text has: T33 of docs/RULES.md.
pub const HEADERS: usize = 64;

pub const PARAMS: usize = 5120;

pub const ENTRIES: usize = 1024;

// The places of the counts: those of the H lines come first, then those of the P lines, and of the E lines 64 for each D line.
pub const PARAM: usize = HEADERS;

pub const ENTRY: usize = PARAM + PARAMS;

// The place of a refusal's number, 5, 6 or 7, is so much further on.
pub const REFUSED: usize = ENTRY + ENTRIES - 5;

// How many counts there are.
pub const COUNTS: usize = REFUSED + 8;

// Where a P line has no set. No Option: the caller lends the sets as bytes (fixed memory, and the C interface).
pub const NO_SET: u8 = 16;

// Counts one more at a place, if there is such a place and it has not reached the greatest number.
fn raise(counts: &mut [u64; COUNTS], at: usize)
    ensures { counts.new ≡ raised counts.old at }
{
    if COUNTS <= at {
        return;
    }
    if MOST <= counts[at] {
        return;
    }
    counts[at] += 1;
}

// The place of number k of n that stand from a place on; the number of counts where there is no such. No Option: `raise` has to test the place anyway, since
// a refusal's number may lie past the counts too.
fn place_in(from: usize, n: usize, k: u64) -> usize
    requires { from + n ≤ size }
    ensures { result ≡ place_in from n k }
{
    if k < n as u64 {
        return from + k as usize;
    }
    COUNTS
}

// The place of a symbol, from 1, of a set, which is a D line's number.
fn place_of(set: u8, symbol: u64) -> usize
    ensures { result ≡ entry_place set symbol }
{
    if symbol == 0 {
        return COUNTS;
    }
    if 64 < symbol {
        return COUNTS;
    }
    place_in(ENTRY, ENTRIES, set as u64 * 64 + symbol - 1)
}

// The set of P line k.
fn set_at(sets: &[u8; PARAMS], k: u64) -> u8
    ensures { result ≡ set_at sets.now k }
{
    if k < PARAMS as u64 {
        return sets[k as usize];
    }
    NO_SET
}

// Counts a row: its P line, and its symbol where it has one.
fn count_row(number: u64, symbol: u64, sets: &[u8; PARAMS], counts: &mut [u64; COUNTS])
    ensures { counts.new ≡ raised_all counts.old (row_places sets.now number symbol) }
{
    raise(counts, place_in(PARAM, PARAMS, number));
    raise(counts, place_of(set_at(sets, number), symbol));
}

// Counts the first n rows of a table.
fn count_rows(rows: &[u64], n: usize, sets: &[u8; PARAMS], counts: &mut [u64; COUNTS])
    requires { n * row_width ≤ length rows.now }
    ensures { counts.new ≡ raised_all counts.old (rows_from sets.now rows.now 0 n) }
{
    for k in 0..n {
        let at = k * ROW_WIDTH;
        count_row(rows[at + NUMBER], rows[at + SYMBOL], sets, counts);
    }
}

// Counts a refusal by 5, 6 or 7.
fn count_refused(refusal: Refusal, counts: &mut [u64; COUNTS])
    ensures { counts.new ≡ raised counts.old (refused_place (number_of refusal)) }
{
    let number = refusal.number() as usize;
    if number < 5 {
        return;
    }
    raise(counts, REFUSED + number);
}

// Counts the header of an MPDU, by an accepted text and the sets of its P lines.
pub fn count_header(
    text: &[u8],
    mpdu: &[u8],
    region: u64,
    speed: u64,
    sets: &[u8; PARAMS],
    counts: &mut [u64; COUNTS],
)
    requires { verdict text.now ≡ Ok tt }
    ensures { counts.new ≡ raised_all counts.old (frame_places sets.now text.now mpdu.now region speed) }
{
    let mut rows = [0u64; MOST_NUMBERS];
    match decode_accepted(text, mpdu, region, speed, &mut rows) {
        Ok(header) => {
            raise(counts, place_in(0, HEADERS, header.number as u64));
            count_rows(&rows, header.rows, sets, counts);
        }
        Err(refusal) => count_refused(refusal, counts),
    }
}
