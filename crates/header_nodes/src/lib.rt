// The nodes that a field of a header addresses: BM2 and BM4 of docs/RULES.md. The header is read into rows of its own, and the row that is asked
// for must be a BITMASK of whole bytes at a whole byte.
#![tactic(auto, using(crate::proofs::Laws::laws, crate::proofs::Types::type_laws))]

ghost use Rattle.std.specs.Prelude.{◌≡◌, ◌+◌, ◌*◌, ◌≤◌, length, Ok};
ghost use Rattle.frame_text.specs.Rules.{verdict};
ghost use Rattle.header_rules.specs.Table.{row_width};
ghost use Rattle.header_nodes.specs.Fields.{param_type, is_bitmask, is_typed, is_mask};
ghost use Rattle.header_nodes.specs.Answer.{RowNodes, LentNodes, HeaderNodes};

use frame_definition::find_param;
use frame_text::{ParamType, check_frame_text};
use header::{MOST_NUMBERS, decode_accepted};
use header_paths::part_of;
use header_rows::{BITS, NUMBER, ROW_WIDTH, START};
use node_mask::mask_nodes;
use refusal::Refusal;

// The type of the P line of this number.
pub fn param_type(text: &[u8], number: u64) -> Option<ParamType>
    requires { verdict text.now ≡ Ok tt }
    ensures { result ≡ param_type text.now number }
{
    let (field, _) = find_param(text, number)?;
    Some(field.kind)
}

fn is_bitmask(kind: ParamType) -> bool
    ensures { result ≡ is_bitmask kind }
{
    matches!(kind, ParamType::Bitmask)
}

fn is_typed(typed: Option<ParamType>) -> bool
    ensures { result ≡ is_typed typed }
{
    typed.is_some_and(|kind| is_bitmask(kind))
}

// Is it such a field, of the P line of this number, with so many bits from the bit `start` on?
fn is_mask(text: &[u8], number: u64, start: u64, bits: u64) -> bool
    requires { verdict text.now ≡ Ok tt }
    ensures { result ≡ is_mask text.now number start bits }
{
    if start % 8 != 0 {
        return false;
    }
    if bits % 8 != 0 {
        return false;
    }
    is_typed(param_type(text, number))
}

// The nodes of a row of a header by a text that is accepted; or refusal 11 or 8.
fn nodes_of_row(
    text: &[u8],
    mpdu: &[u8],
    rows: &[u64],
    row: usize,
    nodes: &mut [u16],
) -> Result<usize, Refusal>
    requires { (verdict text.now ≡ Ok tt) × (row * row_width + row_width ≤ length rows.now) }
    ensures { RowNodes text.now mpdu.now rows.now row nodes.old result nodes.new }
{
    let at = row * ROW_WIDTH;
    if is_mask(text, rows[at + NUMBER], rows[at + START], rows[at + BITS]) {
        let mask = part_of(mpdu, rows[at + START] / 8, rows[at + BITS] / 8);
        return mask_nodes(mask, nodes);
    }
    Err(Refusal::NoSuchField(row))
}

// The nodes of a row of a table that `decode_header` has filled; or refusal 1 to 3, 11, 4 or 8.
pub fn row_nodes(
    text: &[u8],
    mpdu: &[u8],
    rows: &[u64],
    row: usize,
    nodes: &mut [u16],
) -> Result<usize, Refusal>
    ensures { LentNodes text.now mpdu.now rows.now row nodes.old result nodes.new }
{
    check_frame_text(text)?;
    if rows.len() / ROW_WIDTH <= row {
        return Err(Refusal::NoSuchField(row));
    }
    nodes_of_row(text, mpdu, rows, row, nodes)
}

// The nodes of a row of the header by a text that is accepted; or refusal 4 to 7, 11 or 8.
pub fn nodes_accepted(
    text: &[u8],
    mpdu: &[u8],
    region: u64,
    speed: u64,
    row: usize,
    nodes: &mut [u16],
) -> Result<usize, Refusal>
    requires { verdict text.now ≡ Ok tt }
    ensures { HeaderNodes text.now mpdu.now region speed row nodes.old result nodes.new }
{
    let mut rows = [0u64; MOST_NUMBERS];
    let header = decode_accepted(text, mpdu, region, speed, &mut rows)?;
    if header.rows <= row {
        return Err(Refusal::NoSuchField(row));
    }
    nodes_of_row(text, mpdu, &rows, row, nodes)
}

// The nodes of a row of the header of an MPDU, rising, each once; or refusal 1 to 7, 11 or 8, and nothing is written.
pub fn header_nodes(
    text: &[u8],
    mpdu: &[u8],
    region: u64,
    speed: u64,
    row: usize,
    nodes: &mut [u16],
) -> Result<usize, Refusal>
    ensures { HeaderNodes text.now mpdu.now region speed row nodes.old result nodes.new }
{
    check_frame_text(text)?;
    nodes_accepted(text, mpdu, region, speed, row, nodes)
}
