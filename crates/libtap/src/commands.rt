// The calls on a command.
ghost use Rattle.std.specs.Prelude.{◌≡◌};
ghost use Rattle.command.specs.Answer.{offsets_by, told, Decodes};
ghost use Rattle.command_row.specs.Answer.{row_of};
ghost use Rattle.libtap.specs.Commands.{told_by, row_told, no_row, told_row};

use command::{Rows, decode_params, offsets_by};
use command_row::command_row;
use command_rules::Row;
use refusal::Refusal;

// A command's parameters as C has them: where `refusal` is 0, how many rows there are, and where the remainder starts in the payload.
#[repr(C)]
#[derive(Clone, Copy)]
pub struct TapParams {
    pub refusal: u64,
    pub value: u64,
    pub rows: u64,
    pub remainder: u64,
}

fn tell_params(params: Result<Rows, Refusal>) -> TapParams
    ensures { told_by result ≡ told params }
{
    match params {
        Ok(rows) => TapParams {
            refusal: 0,
            value: 0,
            rows: rows.count as u64,
            remainder: rows.remainder.0 as u64,
        },
        Err(refusal) => TapParams {
            refusal: refusal.number() as u64,
            value: refusal.carried() as u64,
            rows: 0,
            remainder: 0,
        },
    }
}

// The parameters of a command by its text, with offsets by position or over the entries answered, into the table, the ten numbers of C16 and L3
// (docs/RULES.md) a row. Refusals 1 to 5 and 8.
pub fn tap_decode_params(text: &[u8], payload: &[u8], position: bool, rows: &mut [u64]) -> TapParams
    ensures { Decodes (offsets_by position) text.now payload.now rows.old (told_by result) rows.new }
{
    let params = decode_params(text, payload, offsets_by(position), rows);
    tell_params(params)
}

// One row of a command as C has it: where `refusal` is 0, the ten numbers of C16 and L3 (docs/RULES.md).
#[repr(C)]
#[derive(Clone, Copy)]
pub struct TapRow {
    pub refusal: u64,
    pub carried: u64,
    pub kind: u64,
    pub line: u64,
    pub parent: u64,
    pub start: u64,
    pub end: u64,
    pub valued: u64,
    pub value: u64,
    pub named: u64,
    pub number: u64,
    pub lacking: u64,
}

fn row_of(refusal: u64, carried: u64, numbers: Row) -> TapRow
    ensures { result ≡ row_told refusal carried numbers }
{
    TapRow {
        refusal,
        carried,
        kind: numbers.kind,
        line: numbers.line,
        parent: numbers.parent,
        start: numbers.start,
        end: numbers.end,
        valued: numbers.valued,
        value: numbers.value,
        named: numbers.named,
        number: numbers.number,
        lacking: numbers.lacking,
    }
}

fn no_row() -> Row
    ensures { result ≡ no_row }
{
    Row {
        kind: 0,
        line: 0,
        parent: 0,
        start: 0,
        end: 0,
        valued: 0,
        value: 0,
        named: 0,
        number: 0,
        lacking: 0,
    }
}

fn tell_row(found: Result<Row, Refusal>) -> TapRow
    ensures { result ≡ told_row found }
{
    match found {
        Ok(numbers) => row_of(0, 0, numbers),
        Err(refusal) => { row_of(refusal.number() as u64, refusal.carried() as u64, no_row()) }
    }
}

// The row of this number, from 0, of those that `tap_decode_params` writes, without a table. Refusals 1 to 5, then 11.
pub fn tap_command_row(text: &[u8], payload: &[u8], position: bool, row: usize) -> TapRow
    ensures { result ≡ told_row (row_of (offsets_by position) text.now payload.now row) }
{
    let found = command_row(text, payload, offsets_by(position), row);
    tell_row(found)
}
