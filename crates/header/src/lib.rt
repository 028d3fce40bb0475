// The header of an MPDU, by a frame text. Counterpart of `decode_header` of frame_definition/decode.rs.
#![tactic(auto, using(crate::proofs::Laws::laws))]

ghost use Rattle.std.specs.Prelude.{◌≡◌, ◌*◌, ◌≤◌, length, Some, Ok};
ghost use Rattle.refusal.specs.Refusal.{most_frame};
ghost use Rattle.frame_text.specs.Rules.{verdict};
ghost use Rattle.frame_definition.specs.Find.{FindsBase};
ghost use Rattle.header_rules.specs.Told.{offset_of};
ghost use Rattle.header_rules.specs.Table.{row_width};
ghost use Rattle.header.specs.Decode.{decoded, Decodes};
ghost use Rattle.header.specs.declared.Wanted.TheVariants.{One};
ghost use Rattle.header.specs.Steps.{Ready, headed, rows_read, wanted_in, Shows, Picks, Reads, Answers};
ghost use Rattle.header_candidates.specs.Read.{Roomy, base_of, HoldsBase};

use crc::check_crc;
use frame_definition::{Candidate, Flags, base_key, find_base};
use frame_text::check_frame_text;
use header_candidates::{Read, choose, read_base};
use header_fields::LINE_WIDTH;
use header_paths::{BitOffset, SCRATCH_WIDTH};
use header_rows::{ROW_WIDTH, write_row, write_rows};
use refusal::{MOST_FRAME, Refusal};
use text::{Part, Place};

// The numbers of a table that has room for every header: 128 rows are enough (`enough` of `ByReadings`).
pub const MOST_NUMBERS: usize = 128 * ROW_WIDTH;

// H20 of docs/RULES.md: which H line it is, its key and flags, where its name stands in the text, where the payload starts in the
// MPDU, whether the checksum or CRC is right, and how many rows there are.
#[derive(Clone, Copy)]
pub struct DecodedHeader {
    pub number: usize,
    pub key: u16,
    pub flags: Flags,
    pub name: Part,
    pub payload: u64,
    pub right: bool,
    pub rows: usize,
}

// Which rows of a header are wanted in the table: all of them, none, or the one of a number, from 0. Each stands in its place.
#[derive(Clone, Copy)]
pub enum Wanted {
    All,
    Nothing,
    One(usize),
}

// The byte behind the covered bits.
fn payload_offset(bit: BitOffset) -> u64
    requires { bit.0 ≤ 16384 }
    ensures { result ≡ offset_of bit.0 }
{
    (bit.0 + 7) / 8
}

// The answer for a candidate that was read, but for its rows. `right`: is the checksum or CRC right?
fn heading_of(candidate: Candidate, read: Read, right: bool) -> DecodedHeader
    requires { read.bit.0 ≤ 16384 }
    ensures { result ≡ headed candidate read right }
{
    DecodedHeader {
        number: candidate.number,
        key: candidate.key,
        flags: candidate.flags,
        name: candidate.name,
        payload: payload_offset(read.bit),
        right,
        rows: read.rows,
    }
}

// Writes the rows that are wanted of what was read.
fn write_wanted(
    text: &[u8],
    fields: &[u64],
    scratch: &[u64],
    read: Read,
    wanted: Wanted,
    rows: &mut [u64],
)
    requires { (verdict text.now ≡ Ok tt) × (Ready fields.now scratch.now read) × (read.rows * row_width ≤ length rows.old) }
    ensures { rows.new
        ≡ wanted_in wanted rows.old (rows_read text.now fields.now scratch.now read) }
{
    match wanted {
        Wanted::All => write_rows(text, fields, read.count, scratch, read.rows, rows),
        Wanted::Nothing => {}
        Wanted::One(k) => {
            if k < read.rows {
                write_row(text, fields, read.count, scratch, k, rows);
            }
        }
    }
}

// The answer, if the table has room for the rows of what was read, of which those are written that are wanted; or refusal 8.
fn show(
    text: &[u8],
    fields: &[u64],
    scratch: &[u64],
    read: Read,
    header: DecodedHeader,
    wanted: Wanted,
    rows: &mut [u64],
) -> Result<DecodedHeader, Refusal>
    requires { (verdict text.now ≡ Ok tt) × (Ready fields.now scratch.now read) }
    ensures { Shows text.now fields.now scratch.now read header wanted rows.old result rows.new }
{
    let n = read.rows;
    if rows.len() / ROW_WIDTH < n {
        return Err(Refusal::MoreRows(n));
    }
    write_wanted(text, fields, scratch, read, wanted, rows);
    Ok(header)
}

// What is sought: the base key, at a speed, and which rows are to be written.
#[derive(Clone, Copy)]
struct Sought {
    key: u64,
    speed: u64,
    wanted: Wanted,
}

// The answer for the first candidate that holds; or refusal 7 or 8.
fn pick(
    text: &[u8],
    mpdu: &[u8],
    sought: Sought,
    fields: &mut [u64],
    scratch: &mut [u64],
    base: Read,
    rows: &mut [u64],
) -> Result<DecodedHeader, Refusal>
    requires text_value { verdict text.now ≡ Ok tt }
    requires roomy { (Roomy mpdu.now fields.old scratch.old) × (HoldsBase text.now mpdu.now fields.old scratch.old base) }
    ensures { Picks text.now mpdu.now sought.speed sought.key (base_of text.now fields.old base)
        sought.wanted rows.old result rows.new }
{
    let (candidate, read) = choose(text, mpdu, sought.key, fields, scratch, base).ok_or(
        Refusal::NoCandidate,
    )?;
    let right = check_crc(mpdu, sought.speed);
    let header = heading_of(candidate, read, right);
    show(
        text,
        &fields[..],
        &scratch[..],
        read,
        header,
        sought.wanted,
        rows,
    )
}

// The header by the base whose P lines follow the place, after n P lines of the text; or refusal 7 or 8.
fn read_header(
    text: &[u8],
    mpdu: &[u8],
    sought: Sought,
    start: Place,
    n: usize,
    rows: &mut [u64],
) -> Result<DecodedHeader, Refusal>
    requires text_value { (verdict text.now ≡ Ok tt) × (length mpdu.now ≤ most_frame) }
    requires finds_base { FindsBase text.now sought.key (Some (start, n)) }
    ensures { Reads text.now mpdu.now sought.speed sought.key sought.wanted rows.old result
        rows.new }
{
    let mut fields = [0u64; 128 * LINE_WIDTH];
    let mut scratch = [0u64; 128 * SCRATCH_WIDTH];
    let base = read_base(text, mpdu, start, n, &mut fields, &mut scratch);
    pick(text, mpdu, sought, &mut fields, &mut scratch, base, rows)
}

// The header of an MPDU by a text that is accepted, with those of its rows in the table that are wanted; or refusal 4 to 8.
fn decode_by(
    text: &[u8],
    mpdu: &[u8],
    region: u64,
    speed: u64,
    wanted: Wanted,
    rows: &mut [u64],
) -> Result<DecodedHeader, Refusal>
    requires { verdict text.now ≡ Ok tt }
    ensures { Answers text.now mpdu.now region speed wanted rows.old result rows.new }
{
    if MOST_FRAME < mpdu.len() {
        return Err(Refusal::TooLong(mpdu.len()));
    }
    if mpdu.len() < 2 {
        return Err(Refusal::TooShort(mpdu.len()));
    }
    let key = base_key(text, region, speed);
    let (place, params) = find_base(text, key as u64).ok_or(Refusal::NoBase(key as usize))?;
    let sought = Sought {
        key: key as u64,
        speed,
        wanted,
    };
    read_header(text, mpdu, sought, place, params, rows)
}

// The header of an MPDU, its rows in the table, by a text that is accepted; or refusal 4 to 8. For many MPDUs and one text.
pub fn decode_accepted(
    text: &[u8],
    mpdu: &[u8],
    region: u64,
    speed: u64,
    rows: &mut [u64],
) -> Result<DecodedHeader, Refusal>
    requires { verdict text.now ≡ Ok tt }
    ensures { Decodes text.now mpdu.now region speed rows.old result rows.new }
{
    decode_by(text, mpdu, region, speed, Wanted::All, rows)
}

// The same, but for the rows: only that of this number is written, in its place, and only its symbol is looked up.
pub fn decode_row(
    text: &[u8],
    mpdu: &[u8],
    region: u64,
    speed: u64,
    row: usize,
    rows: &mut [u64],
) -> Result<DecodedHeader, Refusal>
    requires { verdict text.now ≡ Ok tt }
    ensures { Answers text.now mpdu.now region speed (One row) rows.old result rows.new }
{
    decode_by(text, mpdu, region, speed, Wanted::One(row), rows)
}

// What `decode_accepted` answers for a table that has room for every header. No row is written, nor its symbol looked up.
pub fn identify_accepted(
    text: &[u8],
    mpdu: &[u8],
    region: u64,
    speed: u64,
) -> Result<DecodedHeader, Refusal>
    requires { verdict text.now ≡ Ok tt }
    ensures { result ≡ decoded text.now mpdu.now region speed (128 * row_width) }
{
    let mut rows = [0u64; MOST_NUMBERS];
    decode_by(text, mpdu, region, speed, Wanted::Nothing, &mut rows)
}

// The header of an MPDU, its rows in the table; or refusal 1 to 8. A refusal writes nothing, an answer nothing past its last row.
pub fn decode_header(
    text: &[u8],
    mpdu: &[u8],
    region: u64,
    speed: u64,
    rows: &mut [u64],
) -> Result<DecodedHeader, Refusal>
    ensures { Decodes text.now mpdu.now region speed rows.old result rows.new }
{
    check_frame_text(text)?;
    decode_accepted(text, mpdu, region, speed, rows)
}
