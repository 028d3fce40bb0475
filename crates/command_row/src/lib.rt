// One row of a command, by its number and without a table of rows: BM5 of docs/RULES.md. The walk passes over the rows before it, and the table that it is
// lent has room for that row alone.
#![tactic(auto, using(crate::proofs::Laws::laws))]

ghost use Rattle.std.specs.Prelude.{◌≡◌, ◌*◌, ◌<◌, ◌≤◌, length, Ok};
ghost use Rattle.command_text.specs.Rules.{verdict};
ghost use Rattle.command_class.specs.Definition.{definition};
ghost use Rattle.command_schema.specs.Heads.{heads_of, entries_of};
ghost use Rattle.command_schema.specs.Loaded.{loaded_width};
ghost use Rattle.command_rules.specs.Walk.{walk};
ghost use Rattle.command_row.specs.Answer.{nth, row_by, row_of, bytes_of};

use command::{LOADED, LOADED_SHORT, SHORT};
use command_rows::{ROW_WIDTH, read_row};
use command_rules::{Offsets, Row};
use command_text::check_command_text;
use command_walk::walk_params;
use refusal::{MOST_FRAME, Refusal};

// The row of this number of a body, by a text that is loaded into a table with room for it.
fn row_by(
    text: &[u8],
    loaded: &mut [u16],
    offsets: Offsets,
    body: &[u8],
    row: usize,
) -> Result<Row, Refusal>
    requires { (verdict text.now ≡ Ok tt) × (length (heads_of text.now) * loaded_width ≤ length loaded.old) × (length body.now < 65536) }
    ensures { result ≡ nth row (walk offsets body.now (entries_of (heads_of text.now))).rows }
{
    let count = command_schema::load(text, loaded);
    let mut one = [0u64; ROW_WIDTH];
    let taken = walk_params(text, loaded, count, offsets, body, row, &mut one);
    if taken.count <= row {
        return Err(Refusal::NoSuchField(row));
    }
    Ok(read_row(&one, 0))
}

// The row of this number, from 0, of a command by a text that is accepted; or refusal 4, 5 or 11.
pub fn row_accepted(
    text: &[u8],
    payload: &[u8],
    offsets: Offsets,
    row: usize,
) -> Result<Row, Refusal>
    requires { verdict text.now ≡ Ok tt }
    ensures { result ≡ row_by offsets (definition text.now) payload.now row }
{
    let size = payload.len();
    if MOST_FRAME < size {
        return Err(Refusal::TooLong(size));
    }
    if size < 2 {
        return Err(Refusal::TooShort(size));
    }
    if text.len() <= SHORT {
        let mut short = [0u16; LOADED_SHORT];
        return row_by(text, &mut short, offsets, &payload[2..], row);
    }
    let mut loaded = [0u16; LOADED];
    row_by(text, &mut loaded, offsets, &payload[2..], row)
}

// The row of this number, from 0, of a command, with offsets read in one of the two ways; or refusal 1 to 5 or 11.
pub fn command_row(
    text: &[u8],
    payload: &[u8],
    offsets: Offsets,
    row: usize,
) -> Result<Row, Refusal>
    ensures { result ≡ row_of offsets text.now payload.now row }
{
    check_command_text(text)?;
    row_accepted(text, payload, offsets, row)
}

// The bytes of a payload that a row names, as far as they are there.
pub fn bytes_of(payload: &[u8], row: Row) -> &[u8]
    ensures { result.now ≡ bytes_of payload.now row }
{
    let length = payload.len() as u64;
    let start = row.start;
    let end = row.end;
    if end <= start {
        return &payload[..0];
    }
    if length <= start {
        return &payload[..0];
    }
    let a = start as usize;
    if length < end {
        return &payload[a..];
    }
    let e = end as usize;
    &payload[a..e]
}
