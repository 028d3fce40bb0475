// A number that a person types, and one of a field.
#![tactic(auto, using(crate::proofs::numeral::Laws::typing_laws, crate::proofs::numeral::Laws::says_laws))]

ghost use Rattle.std.specs.Prelude.{◌≡◌};
ghost use Rattle.readers.specs.Numeral.{numeral_of, says};

use text::{Number, read_number};

// No number of frames comes near to this one.
const MOST: u64 = 1000000000000000000;

// The decimal number that bytes say.
pub fn read_numeral(bytes: &[u8]) -> Option<u64>
    ensures { result ≡ numeral_of bytes.now }
{
    if bytes.is_empty() {
        return None;
    }
    let mut value: u64 = 0;
    for b in bytes {
        if *b < b'0' || b'9' < *b || MOST <= value {
            return None;
        }
        value = value * 10 + u64::from(*b - b'0');
    }
    Some(value)
}

// Does a field say this number, of at most 255?
pub fn is_number(s: &[u8], n: usize) -> bool
    ensures { result ≡ says n s.now }
{
    match read_number(s, 255) {
        Number::Is(m) => usize::from(m) == n,
        Number::Over | Number::Not => false,
    }
}
