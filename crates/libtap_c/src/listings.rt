// The calls on a listing of a header.
ghost use Rattle.libtap.specs.Listings.{ToldJudgement, ToldWritten};

use libtap::TapAnswer;

// Is this listing our own answer for the MPDU (LS4 of docs/RULES.md)? Answers 0 for yes, else the first of its lines that differs, from 1; or refusal 1 to 7,
// or 16 with the line that is not of the form.
#[unsafe(no_mangle)]
pub extern "C" fn tap_judge_listing(
    text: &[u8],
    mpdu: &[u8],
    region: u64,
    speed: u64,
    listing: &[u8],
) -> TapAnswer
    ensures { ToldJudgement text.now mpdu.now region speed listing.now result }
{
    libtap::listings::tap_judge_listing(text, mpdu, region, speed, listing)
}

// Our own answer for the MPDU as a listing, into the buffer. Answers its length; or refusal 1 to 7, or 12.
#[unsafe(no_mangle)]
pub extern "C" fn tap_write_listing(
    text: &[u8],
    mpdu: &[u8],
    region: u64,
    speed: u64,
    buffer: &mut [u8],
) -> TapAnswer
    ensures { ToldWritten text.now mpdu.now region speed buffer.old result buffer.new }
{
    libtap::listings::tap_write_listing(text, mpdu, region, speed, buffer)
}
