// The calls on a listing of a header.
ghost use Rattle.std.specs.Prelude.{◌≡◌};
ghost use Rattle.libtap.specs.Listings.{told_judgement, ToldJudgement, ToldWritten};

use crate::values::tell_written;
use crate::{TapAnswer, answer, refuse};
use listing::{Judgement, judge_listing, write_listing};

fn tell_judgement(judgement: Judgement) -> TapAnswer
    ensures { result ≡ told_judgement judgement }
{
    match judgement {
        Judgement::Yes => answer(0),
        Judgement::Differs(line) => answer(line as u64),
        Judgement::Refused(refusal) => refuse(refusal),
    }
}

// Is this listing our own answer for the MPDU (LS4 of docs/RULES.md)? Answers 0 for yes, else the first of its lines that differs, from 1; or refusal 1 to 7,
// or 16 with the line that is not of the form.
pub fn tap_judge_listing(
    text: &[u8],
    mpdu: &[u8],
    region: u64,
    speed: u64,
    listing: &[u8],
) -> TapAnswer
    ensures { ToldJudgement text.now mpdu.now region speed listing.now result }
{
    let judgement = judge_listing(text, mpdu, region, speed, listing);
    tell_judgement(judgement)
}

// Our own answer for the MPDU as a listing, into the buffer. Answers its length; or refusal 1 to 7, or 12.
pub fn tap_write_listing(
    text: &[u8],
    mpdu: &[u8],
    region: u64,
    speed: u64,
    buffer: &mut [u8],
) -> TapAnswer
    ensures { ToldWritten text.now mpdu.now region speed buffer.old result buffer.new }
{
    let written = write_listing(text, mpdu, region, speed, buffer);
    tell_written(written)
}
