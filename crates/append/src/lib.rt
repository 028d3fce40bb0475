// Text appended to a lent buffer: written as far as there is room, and counted in any case.
#![tactic(auto, using(crate::proofs::Laws::laws))]

ghost use Rattle.std.specs.Prelude.{[], ◌∷◌};
ghost use Rattle.append.specs.Append.{Room, Laid};

// Puts a byte at a place of the buffer, if it is inside; answers the place behind.
pub fn append_byte(buffer: &mut [u8], at: usize, b: u8) -> usize
    requires { Room at (b ∷ []) }
    ensures { Laid (b ∷ []) buffer.old at result buffer.new }
{
    if at < buffer.len() {
        buffer[at] = b;
    }
    at + 1
}

// Puts bytes from a place of the buffer on, those that are inside; answers the place behind them.
pub fn append(buffer: &mut [u8], at: usize, bytes: &[u8]) -> usize
    requires { Room at bytes.now }
    ensures { Laid bytes.now buffer.old at result buffer.new }
{
    for (i, b) in bytes.iter().enumerate() {
        append_byte(buffer, at + i, *b);
    }
    at + bytes.len()
}
