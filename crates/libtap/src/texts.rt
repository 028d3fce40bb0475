// The calls on definition texts.
ghost use Rattle.std.specs.Prelude.{◌≡◌};
ghost use Rattle.frame_text.specs.Rules.{verdict as frameVerdict};
ghost use Rattle.command_text.specs.Rules.{verdict as commandVerdict};
ghost use Rattle.libtap.specs.Answers.{judged, ToldTidied};

use crate::values::tell_written;
use crate::{TapAnswer, answer, refuse};
use command_text::check_command_text;
use frame_text::check_frame_text;
use refusal::Refusal;
use tidy::tidy_command_text;

fn tell_verdict(verdict: Result<(), Refusal>) -> TapAnswer
    ensures { result ≡ judged verdict }
{
    match verdict {
        Ok(()) => answer(0),
        Err(refusal) => refuse(refusal),
    }
}

// Is this frame text accepted? Answers 0, or refusal 1, 2 or 3 with its line.
pub fn tap_check_frame_text(text: &[u8]) -> TapAnswer
    ensures { result ≡ judged (frameVerdict text.now) }
{
    let verdict = check_frame_text(text);
    tell_verdict(verdict)
}

// Is this command text accepted? Answers 0, or refusal 1, 2 or 3 with its line.
pub fn tap_check_command_text(text: &[u8]) -> TapAnswer
    ensures { result ≡ judged (commandVerdict text.now) }
{
    let verdict = check_command_text(text);
    tell_verdict(verdict)
}

// A command text with each U line as an S line, into the buffer. Answers its length, which is that of the text. Refusals 1 to 3, then 12.
pub fn tap_tidy_command_text(text: &[u8], buffer: &mut [u8]) -> TapAnswer
    ensures { ToldTidied text.now buffer.old result buffer.new }
{
    let written = tidy_command_text(text, buffer);
    tell_written(written)
}
