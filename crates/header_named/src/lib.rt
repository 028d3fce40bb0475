// The rows of one candidate that is named, whether it holds or not.
#![tactic(auto, using(crate::proofs::Laws::laws))]

ghost use Rattle.std.specs.Prelude.{◌≡◌, ◌*◌, ◌≤◌, length, Ok};
ghost use Rattle.refusal.specs.Refusal.{most_frame};
ghost use Rattle.text.specs.Records.{Readable};
ghost use Rattle.frame_text.specs.Rules.{rules, verdict};
ghost use Rattle.header_rules.specs.Table.{row_width};
ghost use Rattle.header_rules.specs.Trees.{trees};
ghost use Rattle.header_candidates.specs.Read.{Roomy, base_of, HoldsBase};
ghost use Rattle.header_candidates.specs.Choose.{lines_at};
ghost use Rattle.header_named.specs.Named.{FindsNamed, rows_of, Gives, ReadsNamed};

use frame_definition::{Candidate, find_base, next_candidate};
use header_candidates::{Read, read_base, read_own};
use header_fields::LINE_WIDTH;
use header_paths::SCRATCH_WIDTH;
use header_rows::write_rows;
use text::Place;

// The candidate for a base key that has this number among the H lines.
fn find_named(text: &[u8], key: u64, number: u64) -> Option<Candidate>
    requires { verdict text.now ≡ Ok tt }
    ensures { FindsNamed text.now key number result }
{
    let mut place = Place::start();
    let mut h: usize = 0;
    let mut n: usize = 0;
    while let Some(candidate) = next_candidate(text, place, key, h, n) {
        if candidate.number as u64 == number {
            return Some(candidate);
        }
        place = candidate.place;
        h = candidate.number + 1;
        n = candidate.params;
    }
    None
}

// Where P lines begin, and how many P lines come before.
#[derive(Clone, Copy)]
struct Lines {
    place: Place,
    params: usize,
}

// Reads a candidate behind the base that is read, and writes its rows into the table.
fn read_behind(
    text: &[u8],
    mpdu: &[u8],
    lines: Lines,
    fields: &mut [u64],
    scratch: &mut [u64],
    base: Read,
    rows: &mut [u64],
) -> usize
    requires text_value { (verdict text.now ≡ Ok tt) × (128 * row_width ≤ length rows.old) }
    requires readable { (Readable rules text.now lines.place) × (lines.params ≤ length text.now)
        × (length (lines_at text.now lines.place lines.params) ≤ 64) }
    requires roomy { (Roomy mpdu.now fields.old scratch.old) × (HoldsBase text.now mpdu.now fields.old scratch.old base) }
    ensures { let bs = base_of text.now fields.old base in
        let own = lines_at text.now lines.place lines.params in
        Gives (rows_of text.now mpdu.now (trees bs) (trees own)) rows.old result rows.new }
{
    let read = read_own(text, mpdu, lines.place, lines.params, fields, scratch, base);
    write_rows(text, &fields[..], read.count, &scratch[..], read.rows, rows);
    read.rows
}

// Reads a base and a candidate behind it, and writes their rows into the table.
fn read_rows(text: &[u8], mpdu: &[u8], first: Lines, second: Lines, rows: &mut [u64]) -> usize
    requires text_value { (verdict text.now ≡ Ok tt) × (length mpdu.now ≤ most_frame) × (128 * row_width ≤ length rows.old) }
    requires readable { (Readable rules text.now first.place) × (first.params ≤ length text.now)
        × (length (lines_at text.now first.place first.params) ≤ 64) }
    requires readable_2 { (Readable rules text.now second.place) × (second.params ≤ length text.now)
        × (length (lines_at text.now second.place second.params) ≤ 64) }
    ensures { let bs = lines_at text.now first.place first.params in
        let own = lines_at text.now second.place second.params in
        Gives (rows_of text.now mpdu.now (trees bs) (trees own)) rows.old result rows.new }
{
    let mut fields = [0u64; 128 * LINE_WIDTH];
    let mut scratch = [0u64; 128 * SCRATCH_WIDTH];
    let base = read_base(
        text,
        mpdu,
        first.place,
        first.params,
        &mut fields,
        &mut scratch,
    );
    read_behind(text, mpdu, second, &mut fields, &mut scratch, base, rows)
}

// Writes the rows of the candidate for a base key that has this number into the table, whether it holds or not.
pub fn read_named(
    text: &[u8],
    mpdu: &[u8],
    key: u64,
    number: u64,
    rows: &mut [u64],
) -> Option<usize>
    requires { (verdict text.now ≡ Ok tt) × (length mpdu.now ≤ most_frame) × (128 * row_width ≤ length rows.old) }
    ensures { ReadsNamed text.now mpdu.now key number rows.old result rows.new }
{
    let (place, params) = find_base(text, key)?;
    let candidate = find_named(text, key, number)?;
    let first = Lines { place, params };
    let second = Lines {
        place: candidate.place,
        params: candidate.params,
    };
    Some(read_rows(text, mpdu, first, second, rows))
}
