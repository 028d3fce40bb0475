// The calls on definition texts.
ghost use Rattle.std.specs.Prelude.{◌≡◌};
ghost use Rattle.frame_text.specs.Rules.{verdict as frameVerdict};
ghost use Rattle.command_text.specs.Rules.{verdict as commandVerdict};
ghost use Rattle.libtap.specs.Answers.{judged, ToldTidied};

use libtap::TapAnswer;

// Is this frame text accepted? Answers 0, or refusal 1, 2 or 3 with its line.
#[unsafe(no_mangle)]
pub extern "C" fn tap_check_frame_text(text: &[u8]) -> TapAnswer
    ensures { result ≡ judged (frameVerdict text.now) }
{
    libtap::texts::tap_check_frame_text(text)
}

// Is this command text accepted? Answers 0, or refusal 1, 2 or 3 with its line.
#[unsafe(no_mangle)]
pub extern "C" fn tap_check_command_text(text: &[u8]) -> TapAnswer
    ensures { result ≡ judged (commandVerdict text.now) }
{
    libtap::texts::tap_check_command_text(text)
}

// A command text with each U line as an S line, into the buffer. Answers its length, which is that of the text. Refusals 1 to 3, then 12.
#[unsafe(no_mangle)]
pub extern "C" fn tap_tidy_command_text(text: &[u8], buffer: &mut [u8]) -> TapAnswer
    ensures { ToldTidied text.now buffer.old result buffer.new }
{
    libtap::texts::tap_tidy_command_text(text, buffer)
}
