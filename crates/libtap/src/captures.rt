// The calls on the totals of a capture.
ghost use Rattle.std.specs.Prelude.{◌≡◌};
ghost use Rattle.frame.specs.Frame.{reading_by};
ghost use Rattle.libtap.specs.Totals.{told_added, ToldAdded, ToldTotals};

use crate::values::tell_written;
use crate::{TapAnswer, answer, refuse};
use frame::reading_by;
use refusal::Refusal;
use totals::{TOTALS, add_payload};
use totals_text::print_totals;

fn tell_added(added: Result<(), Refusal>) -> TapAnswer
    ensures { result ≡ told_added added }
{
    match added {
        Ok(()) => answer(0),
        Err(refusal) => refuse(refusal),
    }
}

// Adds the frames of a payload, which that firmware wrote, to the totals of TO1 (docs/RULES.md): each by the text, at that region and its own rate, the
// beams a family of their own or not. Answers 0, or refusal 13, 1 to 4 or 10.
pub fn tap_add_payload(
    text: &[u8],
    region: u64,
    firmware: usize,
    family: bool,
    payload: &[u8],
    totals: &mut [u64; TOTALS],
) -> TapAnswer
    ensures { ToldAdded firmware (reading_by family) text.now region payload.now totals.old result totals.new }
{
    let added = add_payload(text, region, firmware, reading_by(family), payload, totals);
    tell_added(added)
}

// The text of totals into the buffer (TO6). Answers its length, or refusal 12.
pub fn tap_print_totals(totals: &[u64; TOTALS], buffer: &mut [u8]) -> TapAnswer
    ensures { ToldTotals totals.now buffer.old result buffer.new }
{
    let written = print_totals(totals, buffer);
    tell_written(written)
}
