// The nodes that a parameter of a command addresses: BM2, BM4 and BM6 of docs/RULES.md. Such a parameter is the row of a Q whose type is BITMASK.
#![tactic(auto, using(crate::proofs::Laws::laws))]

ghost use Rattle.std.specs.Prelude.{◌≡◌, Ok};
ghost use Rattle.command_text.specs.Rules.{verdict};
ghost use Rattle.command_nodes.specs.Fields.{param_type, type_read, is_bitmask, is_typed, is_mask};
ghost use Rattle.command_nodes.specs.Answer.{RowNodes, LentNodes, CommandNodes};

use command_class::{Row as Line, read_at};
use command_row::{bytes_of, row_accepted};
use command_rows::{ROW_WIDTH, read_row};
use command_rules::{Offsets, PARAM_KIND, Row};
use command_text::{ParamType, check_command_text};
use node_mask::mask_nodes;
use refusal::Refusal;
use text::Place;

// The type that a line says, if it is a Q.
fn type_read(row: Line) -> Option<ParamType>
    ensures { result ≡ type_read row }
{
    if row.kind == b'Q' {
        let typed = row.typed;
        return Some(typed);
    }
    None
}

// The type of the Q on the line of this number.
pub fn param_type(text: &[u8], line: u64) -> Option<ParamType>
    requires { verdict text.now ≡ Ok tt }
    ensures { result ≡ param_type text.now line }
{
    let mut place = Place::start();
    while place.at < text.len() {
        let read = read_at(text, place);
        if place.line as u64 == line {
            let row = read.row;
            return type_read(row);
        }
        place = read.next;
    }
    None
}

fn is_bitmask(kind: ParamType) -> bool
    ensures { result ≡ is_bitmask kind }
{
    matches!(kind, ParamType::Bitmask)
}

fn is_typed(typed: Option<ParamType>) -> bool
    ensures { result ≡ is_typed typed }
{
    typed.is_some_and(is_bitmask)
}

// Is it such a row, of this kind and on this line?
fn is_mask(text: &[u8], kind: u64, line: u64) -> bool
    requires { verdict text.now ≡ Ok tt }
    ensures { result ≡ is_mask text.now kind line }
{
    kind == PARAM_KIND && is_typed(param_type(text, line))
}

// The nodes of a row by a text that is accepted; or refusal 11, which carries the number of the row that was asked for, or 8.
fn nodes_of_row(
    text: &[u8],
    payload: &[u8],
    row: Row,
    asked: usize,
    nodes: &mut [u16],
) -> Result<usize, Refusal>
    requires { verdict text.now ≡ Ok tt }
    ensures { RowNodes text.now payload.now row asked nodes.old result nodes.new }
{
    if is_mask(text, row.kind, row.line) {
        return mask_nodes(bytes_of(payload, row), nodes);
    }
    Err(Refusal::NoSuchField(asked))
}

// The nodes of a row of a table that `decode_params` has filled; or refusal 1 to 3, 11, 4 or 8.
pub fn row_nodes(
    text: &[u8],
    payload: &[u8],
    rows: &[u64],
    row: usize,
    nodes: &mut [u16],
) -> Result<usize, Refusal>
    ensures { LentNodes text.now payload.now rows.now row nodes.old result nodes.new }
{
    check_command_text(text)?;
    if rows.len() / ROW_WIDTH <= row {
        return Err(Refusal::NoSuchField(row));
    }
    nodes_of_row(text, payload, read_row(rows, row), row, nodes)
}

// The nodes of a row of the command by a text that is accepted; or refusal 4, 5, 11 or 8.
pub fn nodes_accepted(
    text: &[u8],
    payload: &[u8],
    offsets: Offsets,
    row: usize,
    nodes: &mut [u16],
) -> Result<usize, Refusal>
    requires { verdict text.now ≡ Ok tt }
    ensures { CommandNodes offsets text.now payload.now row nodes.old result nodes.new }
{
    let found = row_accepted(text, payload, offsets, row)?;
    nodes_of_row(text, payload, found, row, nodes)
}

// The nodes of a row of a command, from 0, rising, each once; or refusal 1 to 5, 11 or 8, and nothing is written. The row is walked to, with no table of rows.
pub fn command_nodes(
    text: &[u8],
    payload: &[u8],
    offsets: Offsets,
    row: usize,
    nodes: &mut [u16],
) -> Result<usize, Refusal>
    ensures { CommandNodes offsets text.now payload.now row nodes.old result nodes.new }
{
    check_command_text(text)?;
    nodes_accepted(text, payload, offsets, row, nodes)
}
