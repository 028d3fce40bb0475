// The walks for the benchmark, as a static library: each call is made so many times, so that what it costs can be told from what comes before it.
#![tactic(auto)]

ghost use Rattle.std.specs.Prelude.{◌≡◌, ◌+◌, ◌-◌, ◌*◌, ◌/◌, ◌≤◌, length, Some, Ok};
ghost use Rattle.refusal.specs.Refusal.{most_frame};
ghost use Rattle.frame_text.specs.Rules.{verdict};
ghost use Rattle.frame_definition.specs.Find.{FindsBase};
ghost use Rattle.header_fields.specs.Fields.{line_width};
ghost use Rattle.header_paths.specs.Scratch.{scratch_width};
ghost use Rattle.header_walk.specs.Walk.{Shaped};
ghost use Rattle.header.specs.Decode.{decoded};
ghost use Rattle.bench_walks.specs.Told.{told};

use frame_definition::{base_key, find_base, next_candidate};
use frame_text::check_frame_text;
use header::{DecodedHeader, decode_accepted, decode_header};
use header_candidates::read_base;
use header_fields::LINE_WIDTH;
use header_paths::{BitOffset, SCRATCH_WIDTH};
use header_walk::{Walked, walk_from};
use refusal::{MOST_FRAME, Refusal};
use text::Place;

// An answer's rows, or 1,000 and the refusal's number.
fn tell(decoded: Result<DecodedHeader, Refusal>) -> u64
    ensures { result ≡ told decoded }
{
    match decoded {
        Ok(header) => header.rows as u64,
        Err(refusal) => 1000 + refusal.number() as u64,
    }
}

// The public call, which checks the text.
#[tactic(auto, using(crate::proofs::Laws::laws))]
#[unsafe(no_mangle)]
pub extern "C" fn bench_decode_header(
    text: &[u8],
    mpdu: &[u8],
    region: u64,
    speed: u64,
    rows: &mut [u64],
    times: u64,
) -> u64
    ensures { result ≡ told (decoded text.now mpdu.now region speed (length rows.old)) }
{
    for _ in 1..times {
        let _ = decode_header(text, mpdu, region, speed, rows);
    }
    tell(decode_header(text, mpdu, region, speed, rows))
}

// The call by an accepted text.
#[tactic(auto, using(crate::proofs::Laws::laws))]
fn decode_often(
    text: &[u8],
    mpdu: &[u8],
    region: u64,
    speed: u64,
    rows: &mut [u64],
    times: u64,
) -> u64
    requires { verdict text.now ≡ Ok tt }
    ensures { result ≡ told (decoded text.now mpdu.now region speed (length rows.old)) }
{
    for _ in 1..times {
        let _ = decode_accepted(text, mpdu, region, speed, rows);
    }
    tell(decode_accepted(text, mpdu, region, speed, rows))
}

// The call by an accepted text, which is checked once.
#[unsafe(no_mangle)]
pub extern "C" fn bench_decode_accepted(
    text: &[u8],
    mpdu: &[u8],
    region: u64,
    speed: u64,
    rows: &mut [u64],
    times: u64,
) -> u64
    ensures { result ≡ told (decoded text.now mpdu.now region speed (length rows.old)) }
{
    match check_frame_text(text) {
        Ok(()) => decode_often(text, mpdu, region, speed, rows, times),
        Err(refusal) => tell(Err(refusal)),
    }
}

// Finds candidates, as many as are there and asked for.
#[tactic(auto, using(crate::proofs::Laws::laws))]
fn find_candidates(text: &[u8], key: u64, many: u64) -> u64
    requires { verdict text.now ≡ Ok tt }
{
    let mut place = Place::start();
    let mut h: usize = 0;
    let mut n: usize = 0;
    for m in 0..many {
        let Some(candidate) = next_candidate(text, place, key, h, n) else {
            return m;
        };
        place = candidate.place;
        h = candidate.number + 1;
        n = candidate.params;
    }
    many
}

// Finds the base header and so many candidates.
fn find_lines(text: &[u8], region: u64, speed: u64, many: u64) -> u64
    requires { verdict text.now ≡ Ok tt }
{
    let key = base_key(text, region, speed);
    match find_base(text, key as u64) {
        Some((_, _)) => find_candidates(text, key as u64, many),
        None => 0,
    }
}

// Finding lines alone. Answers how many candidates were found.
#[tactic(auto, using(crate::proofs::Laws::laws))]
#[unsafe(no_mangle)]
pub extern "C" fn bench_find(text: &[u8], region: u64, speed: u64, many: u64, times: u64) -> u64 {
    let Ok(()) = check_frame_text(text) else {
        return 0;
    };
    let mut found = 0;
    for _ in 0..times {
        found = find_lines(text, region, speed, many);
    }
    found
}

// Loads and walks the base header whose P lines follow the place.
#[tactic(auto, using(crate::proofs::Laws::laws))]
fn read_often(text: &[u8], mpdu: &[u8], key: u64, place: Place, n: usize, times: u64) -> u64
    requires text_value { (verdict text.now ≡ Ok tt) × (length mpdu.now ≤ most_frame) }
    requires finds_base { FindsBase text.now key (Some (place, n)) }
{
    let mut fields = [0u64; 128 * LINE_WIDTH];
    let mut scratch = [0u64; 128 * SCRATCH_WIDTH];
    let mut rows = 0;
    for _ in 0..times {
        let base = read_base(text, mpdu, place, n, &mut fields, &mut scratch);
        rows = base.rows as u64;
    }
    rows
}

// Loading and walking the base header alone. Answers its rows.
#[tactic(auto, using(crate::proofs::Laws::laws))]
#[unsafe(no_mangle)]
pub extern "C" fn bench_read_base(
    text: &[u8],
    mpdu: &[u8],
    region: u64,
    speed: u64,
    times: u64,
) -> u64 {
    if MOST_FRAME < mpdu.len() {
        return 0;
    }
    let Ok(()) = check_frame_text(text) else {
        return 0;
    };
    let key = base_key(text, region, speed);
    let Some((place, params)) = find_base(text, key as u64) else {
        return 0;
    };
    read_often(text, mpdu, key as u64, place, params, times)
}

// Where a walk ends, and its rows.
#[repr(C)]
#[derive(Clone, Copy)]
pub struct BenchWalked {
    pub bit: u64,
    pub rows: u64,
}

// The walk over loaded lines, from the line `first` on, behind n rows.
#[tactic(auto, using(crate::proofs::Laws::laws))]
fn walk_often(
    text: &[u8],
    mpdu: &[u8],
    fields: &[u64],
    first: usize,
    from: Walked,
    scratch: &mut [u64],
    times: u64,
) -> BenchWalked
    requires shaped { Shaped mpdu.now fields.now (length fields.now / line_width) }
    requires first_in_bounds { (first ≤ length fields.now / line_width) × (from.bit.0 ≤ length mpdu.now * 8)
        × ((from.rows + (length fields.now / line_width - first)) * scratch_width ≤ length scratch.old) }
{
    let count = fields.len() / LINE_WIDTH;
    let mut bit = from.bit.0;
    let mut rows = from.rows;
    for _ in 0..times {
        let walked = walk_from(mpdu, text, fields, count, first, from, scratch);
        let end = walked.bit;
        bit = end.0;
        rows = walked.rows;
    }
    BenchWalked {
        bit,
        rows: rows as u64,
    }
}

// The walk over loaded lines alone. Where the numbers do not fit the tables, nothing is walked.
#[unsafe(no_mangle)]
pub extern "C" fn bench_walk(
    text: &[u8],
    mpdu: &[u8],
    fields: &[u64],
    first: usize,
    start: u64,
    scratch: &mut [u64],
    n: usize,
    times: u64,
) -> BenchWalked {
    let none = BenchWalked { bit: 0, rows: 0 };
    let count = fields.len() / LINE_WIDTH;
    if MOST_FRAME < mpdu.len() {
        return none;
    }
    if 128 < count {
        return none;
    }
    if count < first {
        return none;
    }
    if mpdu.len() as u64 * 8 < start {
        return none;
    }
    if 128 < n {
        return none;
    }
    if scratch.len() < (n + (count - first)) * SCRATCH_WIDTH {
        return none;
    }
    let from = Walked {
        bit: BitOffset(start),
        rows: n,
    };
    walk_often(text, mpdu, fields, first, from, scratch, times)
}
