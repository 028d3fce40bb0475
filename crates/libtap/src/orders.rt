// The calls on the order of a frame text's headers.
ghost use Rattle.std.specs.Prelude.{◌≡◌};
ghost use Rattle.libtap.specs.Orders.{told_harmless, ToldHarmless, ToldSorted};

use crate::values::tell_written;
use crate::{TapAnswer, answer, refuse};
use overlaps::is_harmless;
use refusal::Refusal;
use sorting::sort_headers;

#[tactic(auto, using(crate::proofs::OrderLaws::order_laws))]
fn tell_harmless(told: Result<bool, Refusal>) -> TapAnswer
    ensures { result ≡ told_harmless told }
{
    match told {
        Ok(true) => answer(1),
        Ok(false) => answer(0),
        Err(refusal) => refuse(refusal),
    }
}

// Can no MPDU be held by two headers of the frame text (OV5 of docs/RULES.md)? Answers 1 for yes, 0 where it cannot be told, or refusal 1 to 3.
pub fn tap_is_harmless(text: &[u8]) -> TapAnswer
    ensures { ToldHarmless text.now result }
{
    let told = is_harmless(text);
    tell_harmless(told)
}

// A frame text with its H blocks sorted by name, into the buffer (O6 of docs/RULES.md). Answers its length, which is that of the text. Refusals 1 to 3,
// then 12.
pub fn tap_sort_headers(text: &[u8], buffer: &mut [u8]) -> TapAnswer
    ensures { ToldSorted text.now buffer.old result buffer.new }
{
    let written = sort_headers(text, buffer);
    tell_written(written)
}
