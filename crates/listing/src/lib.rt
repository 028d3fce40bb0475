// A dealer's listing of a header, judged; and our own answer as such a listing.
#![tactic(auto, using(crate::proofs::Laws::laws))]

ghost use Rattle.std.specs.Prelude.{◌≡◌, ◌*◌, ◌≤◌, length, Ok};
ghost use Rattle.refusal.specs.Refusal.{most_frame};
ghost use Rattle.text.specs.Text.{lines};
ghost use Rattle.frame_text.specs.Rules.{verdict};
ghost use Rattle.header.specs.Decode.{key_of};
ghost use Rattle.listing_text.specs.Listing.{row_width, closed, form_of};
ghost use Rattle.listing_text.specs.Steps.{rows_in};
ghost use Rattle.header_rules.specs.Table.{most_numbers};
ghost use Rattle.listing.specs.Judge.{or_yes, Judges};
ghost use Rattle.listing.specs.Write.{Writes};
ghost use Rattle.listing.specs.Steps.{Own, Other, ByForm, WritesRows};

use frame_definition::base_key;
use header::{MOST_NUMBERS, decode_header};
use header_named::read_named;
use listing_text::{first_difference, put_lines, read_form};
use refusal::Refusal;

// What is said of a listing.
#[derive(Clone, Copy)]
pub enum Judgement {
    Yes,
    // The first line that differs.
    Differs(usize),
    Refused(Refusal),
}

// Yes, where no line differs.
fn or_yes(line: Option<usize>) -> Judgement
    ensures { result ≡ or_yes line }
{
    match line {
        Some(line) => Judgement::Differs(line),
        None => Judgement::Yes,
    }
}

// Where and how fast the frame was sent.
#[derive(Clone, Copy)]
struct Sent {
    region: u64,
    speed: u64,
}

// What is said of a listing whose last line names another H than the first candidate that holds. The table is only lent for its room.
fn judge_other(
    text: &[u8],
    mpdu: &[u8],
    sent: Sent,
    listing: &[u8],
    number: u64,
    last: usize,
    rows: &mut [u64],
) -> Judgement
    requires { (verdict text.now ≡ Ok tt) × (length mpdu.now ≤ most_frame) × (length rows.old ≡ most_numbers) }
    ensures { Other text.now mpdu.now (key_of text.now sent.region sent.speed) listing.now number last result }
{
    let key = base_key(text, sent.region, sent.speed);
    let Some(count) = read_named(text, mpdu, key as u64, number, rows) else {
        return Judgement::Differs(last);
    };
    let line = first_difference(listing, &rows[..], count, number);
    Judgement::Differs(line.unwrap_or(last))
}

// The header that was decoded: its number among the H lines, and how many rows it has.
#[derive(Clone, Copy)]
struct Answered {
    number: usize,
    rows: usize,
}

// What is said of a listing beside the header that was decoded, whose rows are in the table.
fn judge_beside(
    text: &[u8],
    mpdu: &[u8],
    sent: Sent,
    listing: &[u8],
    answered: Answered,
    rows: &mut [u64],
) -> Judgement
    requires { Own text.now mpdu.now (key_of text.now sent.region sent.speed) answered.number answered.rows rows.old }
    ensures { ByForm text.now mpdu.now (key_of text.now sent.region sent.speed) listing.now
        (form_of 1 (lines listing.now)) result }
{
    match read_form(listing) {
        Ok(named) => {
            let number = named.number;
            if number == answered.number as u64 {
                return or_yes(first_difference(listing, &rows[..], answered.rows, number));
            }
            judge_other(text, mpdu, sent, listing, number, named.line, rows)
        }
        Err(line) => Judgement::Refused(Refusal::Listing(line)),
    }
}

// Is this listing, rows and header, our own answer for the MPDU? Yes, or the first of its lines that differs, or refusal 1 to 7 or 16.
pub fn judge_listing(text: &[u8], mpdu: &[u8], region: u64, speed: u64, listing: &[u8]) -> Judgement
    ensures { Judges text.now mpdu.now region speed listing.now result }
{
    let mut rows = [0u64; MOST_NUMBERS];
    match decode_header(text, mpdu, region, speed, &mut rows) {
        Ok(header) => {
            let sent = Sent { region, speed };
            let answered = Answered {
                number: header.number,
                rows: header.rows,
            };
            judge_beside(text, mpdu, sent, listing, answered, &mut rows)
        }
        Err(refusal) => Judgement::Refused(refusal),
    }
}

// Writes the listing of the first rows of a table and of a header's number, if the buffer has room; else refusal 12.
fn write_rows(rows: &[u64], count: usize, number: u64, buffer: &mut [u8]) -> Result<usize, Refusal>
    requires { (count ≤ 128) × (count * row_width ≤ length rows.now) }
    ensures { WritesRows (closed (rows_in count rows.now) number) buffer.old result buffer.new }
{
    let mut none = [0u8; 0];
    let size = put_lines(rows, count, number, &mut none);
    if buffer.len() < size {
        return Err(Refusal::MoreBytes(size));
    }
    put_lines(rows, count, number, buffer);
    Ok(size)
}

// Writes our own answer for the MPDU into the buffer as a listing, and answers its length; or refusal 1 to 7 or 12. A refusal writes nothing, an answer
// nothing past the listing's length.
pub fn write_listing(
    text: &[u8],
    mpdu: &[u8],
    region: u64,
    speed: u64,
    buffer: &mut [u8],
) -> Result<usize, Refusal>
    ensures { Writes text.now mpdu.now region speed buffer.old result buffer.new }
{
    let mut rows = [0u64; MOST_NUMBERS];
    let header = decode_header(text, mpdu, region, speed, &mut rows)?;
    write_rows(&rows, header.rows, header.number as u64, buffer)
}
