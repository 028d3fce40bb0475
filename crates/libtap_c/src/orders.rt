// The calls on the order of a frame text's headers.
ghost use Rattle.libtap.specs.Orders.{ToldHarmless, ToldSorted};

use libtap::TapAnswer;

// Can no MPDU be held by two headers of the frame text (OV5 of docs/RULES.md)? Answers 1 for yes, 0 where it cannot be told, or refusal 1 to 3.
#[unsafe(no_mangle)]
pub extern "C" fn tap_is_harmless(text: &[u8]) -> TapAnswer
    ensures { ToldHarmless text.now result }
{
    libtap::orders::tap_is_harmless(text)
}

// A frame text with its H blocks sorted by name, into the buffer (O6 of docs/RULES.md). Answers its length, which is that of the text. Refusals 1 to 3,
// then 12.
#[unsafe(no_mangle)]
pub extern "C" fn tap_sort_headers(text: &[u8], buffer: &mut [u8]) -> TapAnswer
    ensures { ToldSorted text.now buffer.old result buffer.new }
{
    libtap::orders::tap_sort_headers(text, buffer)
}
