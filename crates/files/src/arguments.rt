// The arguments by their numbers: 0 is the program's own name, 1 the word.
ghost use Rattle.std.specs.Prelude.{◌≤◌, length};

use std::env::FillError;
use std::rt::Env;

// Puts an argument into the lent slice, and answers how many bytes it has: 0 where there is none, or where it is longer than the slice.
pub fn argument(rt: &impl Env, k: usize, bytes: &mut [u8]) -> usize
    ensures { result ≤ length bytes.new }
{
    rt.arg(k, bytes).unwrap_or(0)
}

// How many there are.
pub fn argument_count(rt: &impl Env) -> usize {
    let mut bytes = [0u8; 1];
    for count in 0..usize::MAX {
        if let Err(FillError::NotPresent) = rt.arg(count, &mut bytes) {
            return count;
        }
    }
    usize::MAX
}
