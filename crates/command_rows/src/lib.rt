// Rows of a command's table: C16 and L3 of docs/RULES.md. A function that writes rows is lent the table from its first row on, and
// hands on the rest as a part; what has no room in its part is counted and not written. Where only later rows are wanted, the first
// `skip` rows of a part are passed over: the table begins behind them.
#![tactic(auto, using(crate::proofs::Laws::laws))]

ghost use Rattle.std.specs.Prelude.{◌≡◌, [], ◌∷◌, ◌+◌, ◌-◌, ◌*◌, ◌≤◌, ◌<◌, ◌^◌, length};
ghost use Rattle.command_rules.specs.Rows.{row_width, numbers};
ghost use Rattle.command_rows.specs.Rows.{written, row_at, left_out, row_in};

use command_rules::Row;

// The columns of a row: C16 and L3 of docs/RULES.md.
pub const KIND: usize = 0;

pub const LINE: usize = 1;

pub const PARENT: usize = 2;

pub const START: usize = 3;

pub const END: usize = 4;

pub const VALUED: usize = 5;

pub const VALUE: usize = 6;

pub const NAMED: usize = 7;

pub const NUMBER: usize = 8;

pub const LACKING: usize = 9;

// The numbers of a row.
pub const ROW_WIDTH: usize = LACKING + 1;

fn numbers_of(row: Row) -> [u64; ROW_WIDTH]
    ensures { result ≡ numbers row }
{
    [
        row.kind,
        row.line,
        row.parent,
        row.start,
        row.end,
        row.valued,
        row.value,
        row.named,
        row.number,
        row.lacking,
    ]
}

// Writes row k, if it is not passed over and the table has room for it.
pub fn write_row(table: &mut [u64], skip: usize, k: usize, row: Row)
    requires { k < 2 ^ 56 }
    ensures { table.new ≡ written skip table.old k (row ∷ []) }
{
    if k < skip {
        return;
    }
    rows::put_row(table, (k - skip) * ROW_WIDTH, &numbers_of(row));
}

// Where row k begins in a table of so many numbers, or the table's end if that comes first.
pub fn row_at(skip: usize, k: usize, length: usize) -> usize
    requires { k < 2 ^ 56 }
    ensures value { result ≡ row_at skip k length }
    ensures upper_bound { result ≤ length }
{
    let at = k.saturating_sub(skip) * ROW_WIDTH;
    if at <= length { at } else { length }
}

// Is none of the first `count` rows written into a table of so many numbers?
pub fn is_left_out(skip: usize, count: usize, length: usize) -> bool
    ensures { result ≡ left_out skip count length }
{
    if length < ROW_WIDTH {
        return true;
    }
    count <= skip
}

// Row k of a table.
pub fn read_row(table: &[u64], k: usize) -> Row
    requires { k * row_width + row_width ≤ length table.now }
    ensures { result ≡ row_in table.now k }
{
    let at = k * ROW_WIDTH;
    Row {
        kind: table[at + KIND],
        line: table[at + LINE],
        parent: table[at + PARENT],
        start: table[at + START],
        end: table[at + END],
        valued: table[at + VALUED],
        value: table[at + VALUE],
        named: table[at + NAMED],
        number: table[at + NUMBER],
        lacking: table[at + LACKING],
    }
}
