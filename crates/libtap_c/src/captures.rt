// The calls on the totals of a capture.
ghost use Rattle.frame.specs.Frame.{reading_by};
ghost use Rattle.libtap.specs.Totals.{ToldAdded, ToldTotals};

use libtap::TapAnswer;
use totals::TOTALS;

// Adds the frames of a payload, which that firmware wrote, to the totals of TO1 (docs/RULES.md): each by the text, at that region and its own rate, the
// beams a family of their own or not. Answers 0, or refusal 13, 1 to 4 or 10.
#[unsafe(no_mangle)]
pub extern "C" fn tap_add_payload(
    text: &[u8],
    region: u64,
    firmware: usize,
    family: bool,
    payload: &[u8],
    totals: &mut [u64; TOTALS],
) -> TapAnswer
    ensures { ToldAdded firmware (reading_by family) text.now region payload.now totals.old result totals.new }
{
    libtap::captures::tap_add_payload(text, region, firmware, family, payload, totals)
}

// The text of totals into the buffer (TO6). Answers its length, or refusal 12.
#[unsafe(no_mangle)]
pub extern "C" fn tap_print_totals(totals: &[u64; TOTALS], buffer: &mut [u8]) -> TapAnswer
    ensures { ToldTotals totals.now buffer.old result buffer.new }
{
    libtap::captures::tap_print_totals(totals, buffer)
}
