// The base header's fields, read once, and behind them each candidate's, until one holds: the loops of `decode_header` of
// frame_definition/decode.rs. One table has the loaded P lines, one the scratch rows: base first, then the candidate at hand.
#![tactic(auto, using(crate::proofs::Laws::laws))]

ghost use Rattle.std.specs.Prelude.{◌≡◌, ◌≤◌, length, Ok};
ghost use Rattle.text.specs.Records.{Readable};
ghost use Rattle.frame_text.specs.Rules.{rules, verdict};
ghost use Rattle.header_candidates.specs.Read.{Roomy, base_of, HoldsBase, ReadsBase, ReadsBehind};
ghost use Rattle.header_candidates.specs.Choose.{lines_at, Tries, Chooses};

use frame_definition::{Candidate, next_candidate};
use header_fields::load_params;
use header_paths::BitOffset;
use header_validations::{is_ruled_out, meets_all};
use header_walk::{Walked, walk_from};
use text::Place;

// Fields that were read: how many lines are loaded, where the last field ends, how many rows there are.
#[derive(Clone, Copy)]
pub struct Read {
    pub count: usize,
    pub bit: BitOffset,
    pub rows: usize,
}

// Reads the fields of the base header, whose P lines follow the place, after n P lines of the text.
pub fn read_base(
    text: &[u8],
    mpdu: &[u8],
    start: Place,
    n: usize,
    fields: &mut [u64],
    scratch: &mut [u64],
) -> Read
    requires readable { (Readable rules text.now start) × (n ≤ length text.now) × (length (lines_at text.now start n) ≤ 64) }
    requires roomy { Roomy mpdu.now fields.old scratch.old }
    ensures { ReadsBase text.now mpdu.now (lines_at text.now start n) fields.new
        scratch.new result }
{
    let count = load_params(text, start, n, fields, 0);
    let start = Walked {
        bit: BitOffset(0),
        rows: 0,
    };
    let walked = walk_from(mpdu, text, &fields[..], count, 0, start, scratch);
    Read {
        count,
        bit: walked.bit,
        rows: walked.rows,
    }
}

// Reads a candidate's fields behind the base's.
pub fn read_own(
    text: &[u8],
    mpdu: &[u8],
    start: Place,
    n: usize,
    fields: &mut [u64],
    scratch: &mut [u64],
    base: Read,
) -> Read
    requires readable { (Readable rules text.now start) × (n ≤ length text.now) × (length (lines_at text.now start n) ≤ 64) }
    requires roomy { (Roomy mpdu.now fields.old scratch.old) × (HoldsBase text.now mpdu.now fields.old scratch.old base) }
    ensures { ReadsBehind text.now mpdu.now (lines_at text.now start n) fields.old base fields.new
        scratch.new result }
{
    let first = base.count;
    let from = Walked {
        bit: base.bit,
        rows: base.rows,
    };
    let count = load_params(text, start, n, fields, first);
    let walked = walk_from(mpdu, text, &fields[..], count, first, from, scratch);
    Read {
        count,
        bit: walked.bit,
        rows: walked.rows,
    }
}

// Reads a candidate's fields, and holds its V lines against the rows.
fn hold_candidate(
    text: &[u8],
    mpdu: &[u8],
    start: Place,
    n: usize,
    fields: &mut [u64],
    scratch: &mut [u64],
    base: Read,
) -> Option<Read>
    requires readable { (Readable rules text.now start) × (n ≤ length text.now) × (length (lines_at text.now start n) ≤ 64) }
    requires roomy { (Roomy mpdu.now fields.old scratch.old) × (HoldsBase text.now mpdu.now fields.old scratch.old base) }
    ensures { Tries text.now mpdu.now start n fields.old base fields.new scratch.new result }
{
    let read = read_own(text, mpdu, start, n, fields, scratch, base);
    meets_all(
        text,
        start,
        &fields[..],
        read.count,
        &scratch[..],
        read.rows,
    )
    .then_some(read)
}

// The same. A V that finds another value in the base's rows decides before the candidate is read.
fn try_candidate(
    text: &[u8],
    mpdu: &[u8],
    start: Place,
    n: usize,
    fields: &mut [u64],
    scratch: &mut [u64],
    base: Read,
) -> Option<Read>
    requires readable { (Readable rules text.now start) × (n ≤ length text.now) × (length (lines_at text.now start n) ≤ 64) }
    requires roomy { (Roomy mpdu.now fields.old scratch.old) × (HoldsBase text.now mpdu.now fields.old scratch.old base) }
    ensures { Tries text.now mpdu.now start n fields.old base fields.new scratch.new result }
{
    if is_ruled_out(
        text,
        start,
        &fields[..],
        base.count,
        &scratch[..],
        base.rows,
    ) {
        return None;
    }
    hold_candidate(text, mpdu, start, n, fields, scratch, base)
}

// The first candidate that holds.
pub fn choose(
    text: &[u8],
    mpdu: &[u8],
    key: u64,
    fields: &mut [u64],
    scratch: &mut [u64],
    base: Read,
) -> Option<(Candidate, Read)>
    requires text_value { verdict text.now ≡ Ok tt }
    requires roomy { (Roomy mpdu.now fields.old scratch.old) × (HoldsBase text.now mpdu.now fields.old scratch.old base) }
    ensures { Chooses text.now mpdu.now key (base_of text.now fields.old base) fields.new
        scratch.new result }
{
    let mut place = Place::start();
    let mut h: usize = 0;
    let mut n: usize = 0;
    while let Some(candidate) = next_candidate(text, place, key, h, n) {
        place = candidate.place;
        h = candidate.number + 1;
        n = candidate.params;
        if let Some(read) = try_candidate(text, mpdu, place, n, fields, scratch, base) {
            return Some((candidate, read));
        }
    }
    None
}
