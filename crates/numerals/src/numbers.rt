// Numbers up to 2^64 - 1 in decimal, read.
ghost use Rattle.std.specs.Prelude.{◌≡◌};
ghost use Rattle.numerals.specs.Numbers.{value_of, digits_from};

// The number that s says.
pub fn read_value(s: &[u8]) -> Option<u64>
    ensures { result ≡ value_of s.now }
{
    if s.len() == 0 {
        return None;
    }
    if s[0] == b'0' {
        if s.len() == 1 {
            return Some(0);
        }
        return None;
    }
    read_digits(s)
}

// The number that the digits of s say. A leading 0 counts as any digit.
fn read_digits(s: &[u8]) -> Option<u64>
    ensures { result ≡ digits_from 0 s.now }
{
    let mut v: u64 = 0;
    for b in s {
        if *b < b'0' {
            return None;
        }
        if b'9' < *b {
            return None;
        }
        let digit = u64::from(*b - b'0');
        v = v.checked_mul(10)?.checked_add(digit)?;
    }
    Some(v)
}
