// The parameters of a command, by a definition text: C1 to C19 of docs/RULES.md. Counterpart of command_class/decode.rs, whose
// calls are all to be had here.
// The definition is loaded once (crate `command_schema`). One walker (crate `command_walk`) writes the rows for which there is room in its part of the
// table, and counts all. Where the table may be too small it is run first over an empty part, so that nothing is written before all rows are known to fit.
#![tactic(auto, using(crate::proofs::Decoding::accepted_laws, crate::proofs::Decoding::body_laws, crate::proofs::Decoding::decode_laws))]

ghost use Rattle.std.specs.Prelude.{◌≡◌, ◌*◌, ◌/◌, ◌<◌, ◌≤◌, length, Ok};
ghost use Rattle.command_text.specs.Rules.{verdict};
ghost use Rattle.command_schema.specs.Heads.{heads_of, entries_of};
ghost use Rattle.command_schema.specs.Loaded.{loaded_width, IsLoaded};
ghost use Rattle.command_rules.specs.Rows.{row_width};
ghost use Rattle.command_rules.specs.Walk.{walk};
ghost use Rattle.command.specs.Answer.{offsets_by, told, Fills, DecodesBy, Decodes};

pub use command_lengths::{is_present, variable_len};
pub use command_param::{decode_param, read_uint};
use command_rows::ROW_WIDTH;
pub use command_rules::Offsets;
use command_schema::LOADED_WIDTH;
use command_walk::walk_params;
use records::PayloadOffset;
use refusal::{MOST_FRAME, Refusal};

// The numbers of the loaded definition: it has at most 256 rows.
pub const LOADED: usize = 256 * LOADED_WIDTH;

// A text of so few bytes has at most 48 rows, as a Q or G has at least five: a small table does, and is laid out sooner.
pub const SHORT: usize = 240;

// The numbers of its rows.
pub const LOADED_SHORT: usize = 48 * LOADED_WIDTH;

// The most numbers that a byte of the body makes: 34 rows, for a repetition, a parameter and 32 bit children.
const MOST: usize = 34 * ROW_WIDTH;

// What a command is decoded into: how many rows are written, and where the remainder starts.
#[derive(Clone, Copy)]
pub struct Rows {
    pub count: usize,
    pub remainder: PayloadOffset,
}

// The offsets by position, or those over the entries answered.
pub fn offsets_by(position: bool) -> Offsets
    ensures { result ≡ offsets_by position }
{
    if position {
        return Offsets::Position;
    }
    Offsets::Answered
}

// Writes all rows of a body, for which the table has room.
fn write_body(
    text: &[u8],
    loaded: &[u16],
    count: usize,
    offsets: Offsets,
    body: &[u8],
    rows: &mut [u64],
) -> Rows
    requires { (IsLoaded text.now loaded.now count) × (length body.now < 65536)
        × (length (walk offsets body.now (entries_of (heads_of text.now))).rows ≤ length rows.old / row_width) }
    ensures { Fills (walk offsets body.now (entries_of (heads_of text.now))) rows.old (told (Ok result)) rows.new }
{
    let taken = walk_params(text, loaded, count, offsets, body, 0, rows);
    Rows {
        count: taken.count,
        remainder: command_param::in_payload(taken.end),
    }
}

// Writes at once where the table has room whatever the body is. Else counts, then writes: the table is left alone if it has no room for every row.
fn decode_body(
    text: &[u8],
    loaded: &[u16],
    count: usize,
    offsets: Offsets,
    body: &[u8],
    rows: &mut [u64],
) -> Result<Rows, Refusal>
    requires { (IsLoaded text.now loaded.now count) × (length body.now < 65536) }
    ensures { Fills (walk offsets body.now (entries_of (heads_of text.now))) rows.old (told result) rows.new }
{
    if body.len() * MOST <= rows.len() {
        return Ok(write_body(text, loaded, count, offsets, body, rows));
    }
    let none: usize = 0;
    let counted = walk_params(text, loaded, count, offsets, body, 0, &mut rows[..none]);
    if rows.len() / ROW_WIDTH < counted.count {
        return Err(Refusal::MoreRows(counted.count));
    }
    Ok(write_body(text, loaded, count, offsets, body, rows))
}

// Loads the text into a table that has room for it, and decodes a body by it.
fn decode_by(
    text: &[u8],
    loaded: &mut [u16],
    offsets: Offsets,
    body: &[u8],
    rows: &mut [u64],
) -> Result<Rows, Refusal>
    requires { (verdict text.now ≡ Ok tt) × (length (heads_of text.now) * loaded_width ≤ length loaded.old) × (length body.now < 65536) }
    ensures { Fills (walk offsets body.now (entries_of (heads_of text.now))) rows.old (told result) rows.new }
{
    let count = command_schema::load(text, loaded);
    decode_body(text, loaded, count, offsets, body, rows)
}

// The parameters of a command by a text that is accepted, with offsets read in one of the two ways, into the table, or refusal 4, 5 or 8.
pub fn decode_accepted(
    text: &[u8],
    payload: &[u8],
    offsets: Offsets,
    rows: &mut [u64],
) -> Result<Rows, Refusal>
    requires { verdict text.now ≡ Ok tt }
    ensures { DecodesBy offsets text.now payload.now rows.old (told result) rows.new }
{
    let size = payload.len();
    if MOST_FRAME < size {
        return Err(Refusal::TooLong(size));
    }
    if size < 2 {
        return Err(Refusal::TooShort(size));
    }
    if text.len() <= SHORT {
        let mut short = [0u16; LOADED_SHORT];
        return decode_by(text, &mut short, offsets, &payload[2..], rows);
    }
    let mut loaded = [0u16; LOADED];
    decode_by(text, &mut loaded, offsets, &payload[2..], rows)
}

// The parameters of a command by a text, with offsets read in one of the two ways, into the table, or a refusal. A refusal writes nothing, an answer
// nothing past its last row.
pub fn decode_params(
    text: &[u8],
    payload: &[u8],
    offsets: Offsets,
    rows: &mut [u64],
) -> Result<Rows, Refusal>
    ensures { Decodes offsets text.now payload.now rows.old (told result) rows.new }
{
    command_text::check_command_text(text)?;
    decode_accepted(text, payload, offsets, rows)
}
