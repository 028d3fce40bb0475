// The calls on a command.
ghost use Rattle.std.specs.Prelude.{◌≡◌};
ghost use Rattle.command.specs.Answer.{offsets_by, Decodes};
ghost use Rattle.command_row.specs.Answer.{row_of};
ghost use Rattle.libtap.specs.Commands.{told_by, told_row};

use libtap::commands::{TapParams, TapRow};

// The parameters of a command by its text, with offsets by position or over the entries answered, into the table, the ten numbers of C16 and L3
// (docs/RULES.md) a row. Refusals 1 to 5 and 8.
#[unsafe(no_mangle)]
pub extern "C" fn tap_decode_params(
    text: &[u8],
    payload: &[u8],
    position: bool,
    rows: &mut [u64],
) -> TapParams
    ensures { Decodes (offsets_by position) text.now payload.now rows.old (told_by result) rows.new }
{
    libtap::commands::tap_decode_params(text, payload, position, rows)
}

// The row of this number, from 0, of those that `tap_decode_params` writes, without a table. Refusals 1 to 5, then 11.
#[unsafe(no_mangle)]
pub extern "C" fn tap_command_row(text: &[u8], payload: &[u8], position: bool, row: usize) -> TapRow
    ensures { result ≡ told_row (row_of (offsets_by position) text.now payload.now row) }
{
    libtap::commands::tap_command_row(text, payload, position, row)
}
