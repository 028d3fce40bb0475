// Text in a lent buffer: written if there is room, else only counted.
#![tactic(auto, using(crate::proofs::Laws::laws))]

ghost use Rattle.std.specs.Prelude.{◌≡◌, ◌+◌, ◌≤◌, length};
ghost use Rattle.std.proofs.lemmas.List.Edits.{sets};
ghost use Rattle.buffer.specs.Buffer.{Writes};

use refusal::Refusal;

// Puts bytes into a buffer that has room for them, from `at` on.
pub fn put(buffer: &mut [u8], at: usize, bytes: &[u8])
    requires { at + length bytes.now ≤ length buffer.old }
    ensures { buffer.new ≡ sets buffer.old at bytes.now }
{
    buffer[at..at + bytes.len()].copy_from_slice(bytes);
}

// Writes bytes at the front of a buffer, if it has room.
pub fn write(bytes: &[u8], buffer: &mut [u8]) -> Result<usize, Refusal>
    ensures { Writes bytes.now buffer.old result buffer.new }
{
    let size = bytes.len();
    if buffer.len() < size {
        return Err(Refusal::MoreBytes(size));
    }
    put(buffer, 0, bytes);
    Ok(size)
}
