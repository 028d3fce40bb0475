// A command text without U lines: each is written as the S that it is read as, and nothing else is moved.
#![tactic(auto, using(crate::proofs::Laws::laws))]

ghost use Rattle.std.specs.Prelude.{◌≡◌, ◌≤◌, length};
ghost use Rattle.std.proofs.lemmas.List.Edits.{sets};
ghost use Rattle.buffer.specs.Buffer.{Writes};
ghost use Rattle.tidy.specs.Tidy.{tidy_byte, tidied, Tidies};

use command_text::check_command_text;
use refusal::Refusal;

// A byte of the tidied text. The byte `b` is the first of a line, or not.
fn tidy_byte(first: bool, b: u8) -> u8
    ensures { result ≡ tidy_byte first b }
{
    if b != b'U' {
        return b;
    }
    if first { b'S' } else { b }
}

// Writes the tidied text into a buffer that has room for it.
fn write_tidied(text: &[u8], buffer: &mut [u8])
    requires { length text.now ≤ length buffer.old }
    ensures { buffer.new ≡ sets buffer.old 0 (tidied text.now) }
{
    let mut first = true;
    for (i, b) in text.iter().enumerate() {
        buffer[i] = tidy_byte(first, *b);
        first = *b == 10;
    }
}

// The same, if the buffer has room; else refusal 12.
fn tidy_within(text: &[u8], buffer: &mut [u8]) -> Result<usize, Refusal>
    ensures { Writes (tidied text.now) buffer.old result buffer.new }
{
    let size = text.len();
    if buffer.len() < size {
        return Err(Refusal::MoreBytes(size));
    }
    write_tidied(text, buffer);
    Ok(size)
}

// Writes a command text into the buffer with each U line as an S line, and answers its length, or refuses. A refusal writes nothing, an answer nothing
// past the text's length.
pub fn tidy_command_text(text: &[u8], buffer: &mut [u8]) -> Result<usize, Refusal>
    ensures { Tidies text.now buffer.old result buffer.new }
{
    check_command_text(text)?;
    tidy_within(text, buffer)
}
