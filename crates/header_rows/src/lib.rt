// The rows of a header's answer: what the scratch rows tell, with the P's number for its place, and with the symbol.
#![tactic(auto, using(crate::proofs::Laws::laws))]

ghost use Rattle.std.specs.Prelude.{◌≡◌, List, map, ℕ, ◌+◌, ◌*◌, ◌≤◌, length, Ok};
ghost use Rattle.frame_text.specs.Rules.{verdict};
ghost use Rattle.frame_definition.specs.Definition.{definition, first_set};
ghost use Rattle.header_fields.specs.Fields.{line_width, fields_in};
ghost use Rattle.header_rules.specs.Loaded.{shown};
ghost use Rattle.header_rules.specs.Level.{said_at, number_at};
ghost use Rattle.header_rules.specs.Rows.{row_value};
ghost use Rattle.header_rules.specs.Table.{row_width, entry_of, symbol_of};
ghost use Rattle.header_paths.specs.Scratch.{scratch_width, row_in, rows_in, tells};
ghost use Rattle.rows.specs.Rows.{put, laid};

use frame_definition::{find_entry, find_set};
use header_fields::{LINE_WIDTH, SET};
use header_paths::{Row, part_of, row_at};
use rows::put_row;

// The columns of a row: H18 of docs/RULES.md.
pub const NUMBER: usize = 0;

pub const PARENT: usize = 1;

pub const START: usize = 2;

pub const BITS: usize = 3;

pub const VALUED: usize = 4;

pub const VALUE: usize = 5;

pub const SYMBOL: usize = 6;

// The numbers of a row.
pub const ROW_WIDTH: usize = SYMBOL + 1;

// The number, from 1, of the first E with a value for its key in the first D of a name, or 0.
fn find_symbol(text: &[u8], name: &[u8], value: u64) -> u64
    requires { verdict text.now ≡ Ok tt }
    ensures { result ≡ entry_of (first_set name.now (definition text.now).sets) value }
{
    let Some(place) = find_set(text, name) else {
        return 0;
    };
    find_entry(text, place, value) as u64
}

// The symbol of a row, whose P is at its place among the loaded lines.
fn symbol_of(text: &[u8], fields: &[u64], count: usize, row: Row) -> u64
    requires text_value { verdict text.now ≡ Ok tt }
    requires line_width_in_bounds { count * line_width ≤ length fields.now }
    ensures { let ps = fields_in text.now fields.now count in
        result ≡ symbol_of (definition text.now).sets (said_at ps row.place).set (row_value (tells row)) }
{
    if row.valued != 1 {
        return 0;
    }
    if count as u64 <= row.place {
        return 0;
    }
    let at = row.place as usize * LINE_WIDTH + SET;
    let len = fields[at + 1];
    if len == 0 {
        return 0;
    }
    find_symbol(text, part_of(text, fields[at], len), row.value)
}

// The number of the P at a place.
fn number_of(fields: &[u64], count: usize, place: u64) -> u64
    requires { count * line_width ≤ length fields.now }
    ensures { (x : List ℕ) → result ≡ number_at (fields_in x fields.now count) place }
{
    if count as u64 <= place {
        return 0;
    }
    fields[place as usize * LINE_WIDTH + header_fields::NUMBER]
}

// The row of the answer.
fn row_of(text: &[u8], fields: &[u64], count: usize, row: Row) -> [u64; ROW_WIDTH]
    requires text_value { verdict text.now ≡ Ok tt }
    requires line_width_in_bounds { count * line_width ≤ length fields.now }
    ensures { let ps = fields_in text.now fields.now count in
        result ≡ shown ps (definition text.now).sets (tells row) }
{
    [
        number_of(fields, count, row.place),
        row.parent,
        row.start.0,
        row.bits,
        row.valued,
        row.value,
        symbol_of(text, fields, count, row),
    ]
}

// Writes the row of the answer that the scratch row k tells.
pub fn write_row(
    text: &[u8],
    fields: &[u64],
    count: usize,
    scratch: &[u64],
    k: usize,
    rows: &mut [u64],
)
    requires text_value { verdict text.now ≡ Ok tt }
    requires line_width_in_bounds { (count * line_width ≤ length fields.now) × ((k + 1) * scratch_width ≤ length scratch.now)
        × (k * row_width ≤ length rows.old) }
    ensures { let ps = fields_in text.now fields.now count in
        rows.new ≡ put rows.old (k * row_width) (shown ps (definition text.now).sets (row_in scratch.now k)) }
{
    let row = row_at(scratch, k);
    let numbers = row_of(text, fields, count, row);
    put_row(rows, k * ROW_WIDTH, &numbers);
}

// Writes the rows of the answer that the first n scratch rows tell, one after the other.
pub fn write_rows(
    text: &[u8],
    fields: &[u64],
    count: usize,
    scratch: &[u64],
    n: usize,
    rows: &mut [u64],
)
    requires text_value { verdict text.now ≡ Ok tt }
    requires line_width_in_bounds { (count * line_width ≤ length fields.now) × (n * scratch_width ≤ length scratch.now) × (n * row_width ≤ length rows.old) }
    ensures { let ps = fields_in text.now fields.now count in
        rows.new ≡ laid rows.old (map (shown ps (definition text.now).sets) (rows_in scratch.now n)) }
{
    for k in 0..n {
        write_row(text, fields, count, scratch, k, rows);
    }
}
